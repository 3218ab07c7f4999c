// Ticks and the CE pin.
ghost use Rattle.std.specs.Prelude.{◌≡◌, ◌≤◌, true, cond, Some, None, length};
ghost use Rattle.frames.specs.Calls.{packet_of};
ghost use Rattle.frames.specs.Packet.{buffer_after};
ghost use Rattle.modes.specs.Modes.{sends};
ghost use Rattle.unit.specs.Units.{role_of, retry_of, fault_refusal};
ghost use Rattle.unit.specs.Ticking.{oldest_packet, sent, bits_of, is_uneventful, tick_state, tick_answer, tick_after, tick_buffer, ce_answer, ce_after};

use crate::refusing::ensure_frame_fits;
use crate::state::{Boxed, State};
use checks::Check;
use commands::Refusal;
use frames::Fields;

// Writes a frame into the buffer, which has room for it, and answers its bit count. Inlined, so that little is left of it for an
// acknowledgement, whose payload is known to be empty.
#[inline(always)]
pub(crate) fn put_frame<C: Check>(fields: &Fields, buffer: &mut [u8]) -> usize
    requires { 42 ≤ length buffer.old }
    ensures answer { result ≡ length (bits_of C.Check.W C.meaning (Some (packet_of fields.now))) }
    ensures buffer { buffer.new ≡ buffer_after (bits_of C.Check.W C.meaning (Some (packet_of fields.now))) buffer.old }
{
    // a buffer with room is not refused
    frames::pack::<C>(fields, buffer).unwrap()
}

impl State {
    // The frame that the oldest payload is sent with.
    #[tactic(auto, unfolding(frames::specs::Octets::octets))]
    fn put_oldest<C: Check>(&self, buffer: &mut [u8]) -> usize
        requires { 42 ≤ length buffer.old }
        ensures answer { result ≡ length (bits_of C.Check.W C.meaning (oldest_packet self.now)) }
        ensures buffer { buffer.new ≡ buffer_after (bits_of C.Check.W C.meaning (oldest_packet self.now)) buffer.old }
    {
        let Some(outgoing) = self.tx.oldest() else {
            return 0;
        };
        let fields = Fields {
            address: self.tx_address(),
            pid: outgoing.pid,
            no_ack: false,
            payload: outgoing.data.payload,
        };
        put_frame::<C>(&fields, buffer)
    }

    // The unit goes on by one tick. The answer is whether the oldest payload is sent.
    fn advance(&mut self) -> bool
        ensures after { self.new ≡ tick_state self.old }
        ensures answer { result ≡ sends (role_of self.old.registers) (retry_of self.old.registers) self.old.core }
    {
        let role = self.role();
        let retry = self.retry();
        let waiting = !self.tx.is_empty();
        self.core.tick(role, retry, waiting)
    }

    // The unit goes on by one tick, and sends what it sends then. Never inlined, so that uneventful ticks pay nothing for it.
    #[inline(never)]
    #[tactic(auto, unfolding(frames::specs::Octets::octets))]
    fn tick_and_send<C: Check>(&mut self, buffer: &mut [u8]) -> usize
        requires { 42 ≤ length buffer.old }
        ensures after { self.new ≡ tick_state self.old }
        ensures answer { result ≡ length (bits_of C.Check.W C.meaning (sent self.old)) }
        ensures buffer { buffer.new ≡ buffer_after (bits_of C.Check.W C.meaning (sent self.old)) buffer.old }
    {
        if !self.advance() {
            return 0;
        }
        self.put_oldest::<C>(buffer)
    }
}

impl State {
    // One tick, if it is uneventful: it needs no buffer then, since it sends nothing. The answer says whether it is; any other is not
    // done. Most ticks are uneventful, so all others are told from them first.
    #[inline]
    pub fn tick_if_uneventful(&mut self) -> bool
        ensures answer { result ≡ is_uneventful self.old }
        ensures state { self.new ≡ cond (is_uneventful self.old) (tick_state self.old) self.old }
        ensures law { is_uneventful self.old ≡ true → (fault_refusal self.old ≡ None) × (sent self.old ≡ None) }
    {
        self.fault.is_none() && self.core.tick_if_uneventful(!self.tx.is_empty())
    }

    // One tick of 10 µs, for frames with that kind of check. The answer is the bit count of the frame that is sent, 0 for none,
    // as the radio's calls have it (docs/MODES.md); it stands in the buffer.
    #[inline]
    #[tactic(auto, unfolding(frames::specs::Octets::octets))]
    pub fn tick<C: Check>(&mut self, buffer: &mut [u8]) -> Result<usize, Refusal>
        ensures answer { result ≡ tick_answer C.Check.W C.meaning self.old (length buffer.old) }
        ensures state { self.new ≡ tick_after self.old (length buffer.old) }
        ensures buffer { buffer.new ≡ tick_buffer C.Check.W C.meaning self.old buffer.old }
    {
        self.ensure_sound()?;
        ensure_frame_fits(buffer)?;
        if self.tick_if_uneventful() {
            return Ok(0);
        }
        Ok(self.tick_and_send::<C>(buffer))
    }

    // Sets the level of the CE pin.
    pub fn ce(&mut self, high: bool) -> Result<(), Refusal>
        ensures answer { result ≡ ce_answer self.old }
        ensures state { self.new ≡ ce_after high self.old }
    {
        self.ensure_sound()?;
        let role = self.role();
        self.core.set_ce(role, high);
        Ok(())
    }
}

impl<C: Check> Boxed<C> {
    // One tick of 10 µs. The answer is the bit count of the frame that is sent, 0 for none; it stands in the buffer.
    pub fn tick(&mut self, buffer: &mut [u8]) -> Result<usize, Refusal>
        ensures answer { result ≡ tick_answer C.Check.W C.meaning self.old.state (length buffer.old) }
        ensures state { self.new.state ≡ tick_after self.old.state (length buffer.old) }
        ensures buffer { buffer.new ≡ tick_buffer C.Check.W C.meaning self.old.state buffer.old }
    {
        self.state.tick::<C>(buffer)
    }

    // Sets the level of the CE pin.
    pub fn ce(&mut self, high: bool) -> Result<(), Refusal>
        ensures answer { result ≡ ce_answer self.old.state }
        ensures state { self.new.state ≡ ce_after high self.old.state }
    {
        self.state.ce(high)
    }
}
