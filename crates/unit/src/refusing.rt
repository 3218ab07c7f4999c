// What refuses a call: a fault before all else, and too small a buffer for the frame that a call may put there.
ghost use Rattle.std.specs.Prelude.{◌≡◌, ◌*◌, [], ◌∷◌, length, nat_lt};
ghost use Rattle.commands.specs.declared.refusal.Refusal.TheVariants.{FrameBytes};
ghost use Rattle.commands.specs.Refusals.{first_of, unless};
ghost use Rattle.unit.specs.Units.{fault_refusal};

use crate::state::State;
use commands::Refusal;

impl State {
    // A unit that was boxed with a fault refuses every call.
    pub(crate) fn ensure_sound(&self) -> Result<(), Refusal>
        ensures { result ≡ unless (fault_refusal self.now) tt }
    {
        self.fault
            .map_or(Ok(()), |register| Err(Refusal::Fault(register)))
    }
}

// The bytes hold that many bits.
pub(crate) fn ensure_bits_there(frame: &[u8], count: usize) -> Result<(), Refusal>
    ensures { result ≡ unless (first_of ((nat_lt (8 * length frame.now) count, FrameBytes) ∷ [])) tt }
{
    if frame.len() < count.div_ceil(8) {
        Err(Refusal::FrameBytes)
    } else {
        Ok(())
    }
}

// The bytes of the longest frame; clauses say the number, so each crate that needs it has its own.
const LONGEST_FRAME: usize = 42;

// There is room for the longest frame.
pub(crate) fn ensure_frame_fits(buffer: &[u8]) -> Result<(), Refusal>
    ensures { result ≡ unless (first_of ((nat_lt (length buffer.now) 42, FrameBytes) ∷ [])) tt }
{
    if buffer.len() < LONGEST_FRAME {
        Err(Refusal::FrameBytes)
    } else {
        Ok(())
    }
}
