ghost use Rattle.std.specs.Prelude.{ℕ, ◌≤◌, length};
ghost use Rattle.frames.specs.Cases.{Holds, All, cases};
ghost use Rattle.frames.specs.Calls.{packet_of, ReadsBack};
ghost use Rattle.frames.specs.Damage.{DamageShows, PatternShows};

use crate::fields::{Fields, Heard, Refusal};
use crate::packing::pack;
use crate::reading::read;
use checks::Check;

// A frame is packed into the buffer and read back from it.
pub fn read_back<C: Check>(fields: &Fields, frame: &mut [u8]) -> Result<Option<Heard>, Refusal>
    ensures { ReadsBack (packet_of fields.now) (length frame.old) result }
{
    let count = pack::<C>(fields, frame)?;
    read::<C>(frame, count, fields.address.wide)
}

// A frame that is changed within W consecutive bits is read as it was sent, if only its preamble changed, or as nothing.
pub fn damage_shows<C: Check>()
    ensures bits { DamageShows C.Check.W C.meaning }
    ensures pattern { PatternShows C.Check.W C.meaning }
{}

// The worked cases of control bits, bit counts and checks hold by the definitions.
pub fn worked_cases()
    ensures { All Holds cases }
{}
