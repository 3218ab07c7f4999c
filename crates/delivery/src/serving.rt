// One call of a list.
ghost use Rattle.std.specs.Prelude.{◌≡◌, ℕ, ◌<◌, ◌≤◌, length, take, Some, slice_index};
ghost use Rattle.std.specs.Option.{option_map};
ghost use Rattle.frames.specs.Packet.{Bytes};
ghost use Rattle.cell.specs.Calls.{commanded};
ghost use Rattle.law.specs.Runs.{command, answer_of, outcome, after};
ghost use Rattle.law.specs.Law.{OfBytes};
ghost use Rattle.delivery.specs.Entries.{reply_bytes, call_of, outcome_of, fresh};

use crate::call::Call;
use crate::entry::{Entry, Outcome};
use crate::reply::Reply;
use cell::{Cell, Refusal};
use checks::Check;
use frames::known_bytes;

impl Reply {
    pub fn bytes(&self) -> &[u8]
        ensures { result.now ≡ reply_bytes self.now }
    {
        &self.held[..self.len]
    }
}

impl<'a> Entry<'a> {
    // A call that was not replayed yet.
    pub fn new(call: Call<'a>) -> Entry<'a>
        ensures { result ≡ fresh call.entry }
    {
        Entry {
            call,
            outcome: None,
        }
    }
}

// What a call without a reply answered.
fn answered(answer: Result<(), Refusal>) -> Outcome
    ensures { outcome_of result ≡ answer_of answer }
{
    match answer {
        Ok(()) => Outcome::Done,
        Err(refusal) => Outcome::Refused(refusal),
    }
}

fn command<C: Check>(cell: &mut Cell<C>, unit: u8, host: &[u8], room: u8) -> Outcome
    ensures outcome { outcome_of result ≡ outcome C.Check.W C.meaning cell.old.inside (command unit host.now room) }
    ensures state { cell.new.inside ≡ commanded cell.old.inside unit host.now room }
    ensures bytes { Bytes host.now }
{
    known_bytes(host);
    let mut held = [0; 255];
    match cell.command(unit, host, &mut held[..usize::from(room)]) {
        Ok(len) => Outcome::Replied(Reply { held, len }),
        Err(refusal) => Outcome::Refused(refusal),
    }
}

impl Call<'_> {
    // The call is made, and says what it answered.
    fn serve<C: Check>(self, cell: &mut Cell<C>) -> Outcome
        ensures outcome { outcome_of result ≡ outcome C.Check.W C.meaning cell.old.inside (call_of self.entry) }
        ensures state { cell.new.inside ≡ after C.Check.W C.meaning cell.old.inside (call_of self.entry) }
        ensures bytes { OfBytes (call_of self.entry) }
    {
        match self {
            Call::Command { unit, host, room } => command(cell, unit, host, room),
            Call::Ce { unit, high } => answered(cell.ce(unit, high)),
            Call::Tick { unit } => answered(cell.tick(unit)),
            Call::Carry {
                fate,
                start,
                pattern,
            } => answered(cell.carry(fate, start, pattern)),
        }
    }
}

impl Entry<'_> {
    // The call is made, and what it answers is written beside it.
    pub(crate) fn replay<C: Check>(&mut self, cell: &mut Cell<C>)
        ensures call { call_of self.new.call ≡ call_of self.old.call }
        ensures outcome { option_map outcome_of self.new.outcome ≡ Some (outcome C.Check.W C.meaning cell.old.inside (call_of self.old.call)) }
        ensures state { cell.new.inside ≡ after C.Check.W C.meaning cell.old.inside (call_of self.old.call) }
        ensures bytes { OfBytes (call_of self.old.call) }
    {
        self.outcome = Some(self.call.serve(cell));
    }
}
