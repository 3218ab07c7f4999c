// Hearing a frame.
ghost use Rattle.std.specs.Prelude.{◌≡◌, ℕ, ◌*◌, ◌≤◌, Bool, false, cond, not, List, length, take, if◌then◌else◌, Some, None, ◌==◌, nat_eq};
ghost use Rattle.checks.specs.Bits.{bits};
ghost use Rattle.queue.specs.Entries.{entries};
ghost use Rattle.std.specs.Str.{bytes_eq};
ghost use Rattle.frames.specs.Packet.{buffer_after};
ghost use Rattle.frames.specs.Calls.{address_bytes, packet_of, pid_number, payload_bytes, payload_of};
ghost use Rattle.registers.specs.Readings.{pipe_address};
ghost use Rattle.bench.specs.Checking.{in_use};
ghost use Rattle.unit.specs.Ticking.{bits_of};
ghost use Rattle.unit.specs.Hearing.{on_pipe, pipe_of, on_its_pipe, taken, acknowledgement, heard_by_receiver, heard_by_sender, hears, dropped, listens, heard_bits, hear_answer, hear_after, hear_buffer};

use crate::entry::{Data, Received};
use crate::memory::Memory;
use crate::refusing::{ensure_bits_there, ensure_frame_fits};
use crate::state::{Boxed, State};
use crate::ticking::put_frame;
use checks::Check;
use commands::Refusal;
use frames::{Address, Fields, Heard, Payload};
use modes::Role;
use registers::Pipe;

// The frame of the answer to a frame, if it wants one: its NO_ACK is 0, as the answer's is then.
#[tactic(auto, unfolding(frames::specs::Octets::octets))]
fn put_acknowledgement<C: Check>(fields: &Fields, buffer: &mut [u8]) -> usize
    requires { 42 ≤ length buffer.old }
    ensures answer { result ≡ length (bits_of C.Check.W C.meaning (acknowledgement (packet_of fields.now))) }
    ensures buffer { buffer.new ≡ buffer_after (bits_of C.Check.W C.meaning (acknowledgement (packet_of fields.now))) buffer.old }
{
    if fields.no_ack {
        return 0;
    }
    let answer = Fields {
        payload: Payload::empty(),
        ..*fields
    };
    put_frame::<C>(&answer, buffer)
}

impl State {
    // The address in use of a pipe.
    fn pipe_in_use(&self, pipe: Pipe) -> Address
        ensures { address_bytes result ≡ in_use self.now.registers (pipe_address self.now.registers pipe) }
    {
        Address::of_low_bytes(self.registers.pipe_address(pipe), self.address_width())
    }

    fn is_on_pipe(&self, address: &Address, pipe: Pipe) -> bool
        ensures { result ≡ on_pipe self.now.registers (address_bytes address.now) pipe }
    {
        self.registers.is_enabled(pipe) && self.pipe_in_use(pipe) == *address
    }

    // The pipe of a receiver with this address. By reference and `copied`: what is found in an
    // array by value needs a lemma of bench's, and is no plainer.
    #[inline(always)]
    pub fn pipe_of(&self, address: &Address) -> Option<Pipe>
        ensures { result ≡ pipe_of self.now.registers (address_bytes address.now) }
    {
        Pipe::all()
            .iter()
            .find(|pipe| self.is_on_pipe(address, **pipe))
            .copied()
    }

    // A frame with the address of one of the receiver's pipes. The answer is whether it is acknowledged, where it wants to be.
    fn hear_on(&mut self, pipe: Pipe, heard: &Heard) -> bool
        requires { heard.now.fields.payload ≡ payload_of (payload_bytes heard.now.fields.payload) }
        ensures after { self.new ≡ (on_its_pipe self.old (packet_of heard.now.fields) (record { pid = pid_number heard.now.fields.pid; check = heard.now.check }) (Some pipe)).state }
        ensures answer { (on_its_pipe self.old (packet_of heard.now.fields) (record { pid = pid_number heard.now.fields.pid; check = heard.now.check }) (Some pipe)).answer ≡ cond result (acknowledgement (packet_of heard.now.fields)) None }
    {
        let length = heard.fields.payload.bytes().len();
        if length != usize::from(self.registers.payload_width(pipe)) {
            return false;
        }
        let memory = Memory {
            pid: heard.fields.pid.number(),
            check: heard.check,
        };
        if self.memories.knows(pipe, memory) {
            return true;
        }
        let Some(data) = Data::of(heard.fields.payload) else {
            return false;
        };
        if self.rx.push(Received { pipe, data }).is_err() {
            return false;
        }
        self.core.flags.rx_dr = true;
        self.memories.remember(pipe, memory);
        true
    }

    fn hear_as_receiver(&mut self, heard: &Heard) -> bool
        requires { heard.now.fields.payload ≡ payload_of (payload_bytes heard.now.fields.payload) }
        ensures after { self.new ≡ (heard_by_receiver self.old (packet_of heard.now.fields) heard.now.check).state }
        ensures answer { (heard_by_receiver self.old (packet_of heard.now.fields) heard.now.check).answer ≡ cond result (acknowledgement (packet_of heard.now.fields)) None }
    {
        match self.pipe_of(&heard.fields.address) {
            Some(pipe) => self.hear_on(pipe, heard),
            None => false,
        }
    }

    fn hear_as_sender(&mut self, fields: &Fields)
        ensures { self.new ≡ (heard_by_sender self.old (packet_of fields.now)).state }
    {
        if fields.payload.bytes().is_empty() && self.pipe_in_use(Pipe::P0) == fields.address {
            let _ = self.tx.pop();
            let left = !self.tx.is_empty();
            self.core.acknowledge(left);
        }
    }

    // A frame that was read. The answer is whether it is acknowledged, where it wants to be: a bit and no frame, which would be copied
    // from call to call.
    fn take_in(&mut self, heard: &Heard) -> bool
        requires { heard.now.fields.payload ≡ payload_of (payload_bytes heard.now.fields.payload) }
        ensures after { self.new ≡ (hears self.old (packet_of heard.now.fields) heard.now.check).state }
        ensures answer { (hears self.old (packet_of heard.now.fields) heard.now.check).answer ≡ cond result (acknowledgement (packet_of heard.now.fields)) None }
    {
        match self.role() {
            Role::Receiver if self.core.mode.is_rx() => self.hear_as_receiver(heard),
            Role::Sender if self.core.mode.is_waiting() => {
                self.hear_as_sender(&heard.fields);
                false
            }
            _ => false,
        }
    }

    // Whether the unit listens at all: one that does not drops each frame unread.
    #[tactic(auto, using(crate::proofs::Deaf::deaf))]
    #[inline]
    pub fn listens(&self) -> bool
        ensures value { result ≡ listens self.now }
        ensures law { (w : ℕ) (f : List Bool → ℕ) (xs : List Bool) → listens self.now ≡ false → heard_bits w f self.now xs ≡ dropped self.now }
    {
        match self.role() {
            Role::Receiver => self.core.mode.is_rx(),
            Role::Sender => self.core.mode.is_waiting(),
        }
    }

    // The bits of a frame, which its bytes hold; the buffer has room for the answer. They are read only where the unit listens: most
    // that reach a unit are for others.
    #[tactic(auto, using(crate::proofs::Deaf::deaf), unfolding(frames::specs::Octets::octets))]
    fn hear_bits<C: Check>(&mut self, frame: &[u8], count: usize, buffer: &mut [u8]) -> usize
        requires held { count ≤ 8 * length frame.now }
        requires room { 42 ≤ length buffer.old }
        ensures after { self.new ≡ (heard_bits C.Check.W C.meaning self.old (take count (bits frame.now))).state }
        ensures answer { result ≡ length (bits_of C.Check.W C.meaning (heard_bits C.Check.W C.meaning self.old (take count (bits frame.now))).answer) }
        ensures buffer { buffer.new ≡ buffer_after (bits_of C.Check.W C.meaning (heard_bits C.Check.W C.meaning self.old (take count (bits frame.now))).answer) buffer.old }
    {
        if !self.listens() {
            return 0;
        }
        // the bytes hold the bits, so reading is not refused
        let Some(heard) = frames::read::<C>(frame, count, self.address_width()).unwrap() else {
            return 0;
        };
        if !self.take_in(&heard) {
            return 0;
        }
        put_acknowledgement::<C>(&heard.fields, buffer)
    }

    // A frame with that kind of check reaches the unit: the first `count` bits of its bytes. The answer is the bit count of the
    // frame that is sent back, 0 for none, as the radio's calls have it (docs/HEARING.md); it stands in the buffer.
    #[tactic(auto, unfolding(frames::specs::Octets::octets))]
    pub fn hear<C: Check>(
        &mut self,
        frame: &[u8],
        count: usize,
        buffer: &mut [u8],
    ) -> Result<usize, Refusal>
        ensures answer { result ≡ hear_answer C.Check.W C.meaning self.old frame.now count (length buffer.old) }
        ensures state { self.new ≡ hear_after C.Check.W C.meaning self.old frame.now count (length buffer.old) }
        ensures buffer { buffer.new ≡ hear_buffer C.Check.W C.meaning self.old frame.now count buffer.old }
    {
        self.ensure_sound()?;
        ensure_frame_fits(buffer)?;
        ensure_bits_there(frame, count)?;
        Ok(self.hear_bits::<C>(frame, count, buffer))
    }
}

impl<C: Check> Boxed<C> {
    // A frame reaches the unit: the first `count` bits of its bytes. The answer is the bit count of the frame that is sent
    // back, 0 for none; it stands in the buffer.
    pub fn hear(&mut self, frame: &[u8], count: usize, buffer: &mut [u8]) -> Result<usize, Refusal>
        ensures answer { result ≡ hear_answer C.Check.W C.meaning self.old.state frame.now count (length buffer.old) }
        ensures state { self.new.state ≡ hear_after C.Check.W C.meaning self.old.state frame.now count (length buffer.old) }
        ensures buffer { buffer.new ≡ hear_buffer C.Check.W C.meaning self.old.state frame.now count buffer.old }
    {
        self.state.hear::<C>(frame, count, buffer)
    }
}
