// A frame on the air is heard.
ghost use Rattle.std.specs.Prelude.{◌≡◌, cond, length, ◌==◌};
ghost use Rattle.std.specs.Option.{option_map};
ghost use Rattle.checks.specs.Bits.{word};
ghost use Rattle.frames.specs.Damage.{changed};
ghost use Rattle.frames.specs.Packet.{buffer_after};
ghost use Rattle.cell.specs.Air.{bits_on};
ghost use Rattle.cell.specs.Calls.{heard_by_unit, answer_bits, answer_by, heard_by_all, answer_of, heard_once};

use crate::air::Frame;
use crate::airing::LONGEST_FRAME;
use crate::parts::{Inside, Places};
use checks::Check;
use unit::State;

// A unit hears a frame. Its answer, of so many bits, then stands in the bytes.
#[tactic(auto, unfolding(frames::specs::Octets::octets))]
fn hear<C: Check>(unit: &mut State, frame: &Frame, answer: &mut [u8; LONGEST_FRAME]) -> usize
    ensures state { unit.new ≡ heard_by_unit C.Check.W C.meaning frame.now (bits_on frame.now) unit.old }
    ensures count { result ≡ length (answer_bits C.Check.W C.meaning frame.now (bits_on frame.now) unit.old) }
    ensures answer { answer.new ≡ buffer_after (answer_bits C.Check.W C.meaning frame.now (bits_on frame.now) unit.old) answer.old }
{
    // a refusal is no answer: the unit has a fault, or the frame has more bits than its bytes
    unit.hear::<C>(&frame.bytes, frame.count, answer)
        .unwrap_or(0)
}

impl Frame {
    // The frame with its bits changed by a pattern, its top bit on the start bit.
    pub(crate) fn changed(&self, start: usize, pattern: u16) -> Frame
        ensures bits { bits_on result ≡ changed (bits_on self.now) start (word 16 pattern) }
        ensures from { result.from ≡ self.now.from }
        ensures count { result.count ≡ self.now.count }
    {
        let mut bytes = self.bytes;
        frames::change(&mut bytes, self.count, start, pattern);
        Frame { bytes, ..*self }
    }
}

// The unit at a place hears a frame, if there is a unit and the frame is not its own. Its answer, of so many bits, then stands in the
// bytes. Only what the receiver answers, which is unit 0, counts.
#[tactic(auto, unfolding(frames::specs::Octets::octets))]
fn hear_at<C: Check>(
    place: &mut Option<State>,
    unit: usize,
    frame: &Frame,
    answer: &mut [u8; LONGEST_FRAME],
) -> usize
    ensures place { place.new ≡ cond (unit == frame.now.from) place.old (option_map (heard_by_unit C.Check.W C.meaning frame.now (bits_on frame.now)) place.old) }
    ensures count { unit ≡ 0 → result ≡ length (answer_by C.Check.W C.meaning place.old frame.now (bits_on frame.now)) }
    ensures answer { unit ≡ 0 → answer.new ≡ buffer_after (answer_by C.Check.W C.meaning place.old frame.now (bits_on frame.now)) answer.old }
{
    if unit == usize::from(frame.from) {
        return 0;
    }
    match place {
        // most units do not listen when a frame comes
        Some(state) if state.listens() => hear::<C>(state, frame, answer),
        _ => 0,
    }
}

impl Places {
    // Every unit but the sender hears the frame; the receiver's answer, of so many bits, then stands in the bytes. The loop goes by
    // numbers, since after one over the places themselves nothing is known of them.
    fn hear<C: Check>(&mut self, frame: &Frame, answer: &mut [u8; LONGEST_FRAME]) -> usize
        ensures places { self.new.at ≡ heard_by_all C.Check.W C.meaning frame.now (bits_on frame.now) self.old.at }
        ensures count { result ≡ length (answer_of C.Check.W C.meaning frame.now (bits_on frame.now) self.old.at) }
        ensures answer { answer.new ≡ buffer_after (answer_of C.Check.W C.meaning frame.now (bits_on frame.now) self.old.at) answer.old }
    {
        let count = hear_at::<C>(&mut self.at[0], 0, frame, answer);
        // what another unit would answer
        let mut unheard = [0; LONGEST_FRAME];
        for unit in 1..self.at.len() {
            let _ = hear_at::<C>(&mut self.at[unit], unit, frame, &mut unheard);
        }
        count
    }
}

impl Inside {
    // Every unit but the sender hears the frame; the receiver's answer is then on the air.
    pub(crate) fn hear_once<C: Check>(&mut self, frame: &Frame)
        ensures { self.new ≡ heard_once C.Check.W C.meaning self.old frame.now (bits_on frame.now) }
    {
        let mut answer = [0; LONGEST_FRAME];
        let count = self.places.hear::<C>(frame, &mut answer);
        self.air = Frame::aired(0, count, answer);
    }
}
