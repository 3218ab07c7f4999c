// What a line does to a cell. Each call is replayed as a list of its own: the lists follow one another, so they carry the law of the
// whole run (docs/CELL.md).
ghost use Rattle.std.specs.Prelude.{◌≡◌, Ok};
ghost use Rattle.std.specs.Option.{option_map};
ghost use Rattle.cell.specs.Calls.{tick_result, ticked};
ghost use Rattle.law.specs.Runs.{outcome, after, command as law_command};
ghost use Rattle.delivery.specs.Entries.{call_of, outcome_of};
ghost use Rattle.requests.specs.Lines.{called, command as command_call, tick as tick_call};
ghost use Rattle.desk.specs.Answers.{said_of, Says};
ghost use Rattle.desk.specs.CellCalls.{frame_aired, waiting_at, gave_up_at, said_by, watched_after, watched_said, carried_on, carry_said, cell_ticks, ticks_said};

use crate::answer::{Frame, Refusal, UnitAnswer, UnitResult};
use crate::slot::Watched;
use cell::Cell;
use checks::Check;
use delivery::{Call, Entry, Outcome, replay};
use requests::{Lack, Times, UnitCall};

// One call, made by a replay.
fn replayed<C: Check>(cell: &mut Cell<C>, call: Call<'_>) -> Outcome
    ensures state { cell.new.inside ≡ after C.Check.W C.meaning cell.old.inside (call_of call.entry) }
    ensures outcome { outcome_of result ≡ outcome C.Check.W C.meaning cell.old.inside (call_of call.entry) }
{
    let mut entries = [Entry::new(call)];
    replay(cell, &mut entries);
    entries[0].outcome.unwrap()
}

// What a call without a reply of its own answered.
fn answered(outcome: Outcome) -> UnitResult
    ensures { said_of result ≡ said_by (outcome_of outcome) }
{
    match outcome {
        Outcome::Replied(reply) => Ok(UnitAnswer::CellReply(reply)),
        Outcome::Done => Ok(UnitAnswer::Done),
        Outcome::Refused(refusal) => Err(Refusal::Cell(refusal)),
    }
}

// The frame on the air.
fn aired<C>(cell: &Cell<C>) -> Option<Frame>
    ensures { result ≡ option_map frame_aired cell.now.inside.air }
{
    let frame = cell.inside.air?;
    let buffer = frame.bytes;
    Some(Frame {
        bits: frame.count,
        buffer,
    })
}

// How many payloads wait at a unit, if there is the unit.
pub(crate) fn waiting<C>(cell: &Cell<C>, unit: u8) -> Option<usize>
    ensures { result ≡ waiting_at cell.now.inside unit }
{
    let state = cell.inside.places.at.get(usize::from(unit))?.as_ref()?;
    Some(state.tx.len())
}

// Whether a unit gave a payload up, and was not told to go on yet.
fn gave_up<C>(cell: &Cell<C>, unit: u8) -> bool
    ensures { result ≡ gave_up_at cell.now.inside unit }
{
    cell.inside
        .places
        .at
        .get(usize::from(unit))
        .and_then(Option::as_ref)
        .is_some_and(|state| state.core.flags.max_rt)
}

// One tick of a unit.
fn tick_once<C: Check>(cell: &mut Cell<C>, unit: u8) -> Result<(), cell::Refusal>
    ensures state { cell.new.inside ≡ ticked C.Check.W C.meaning cell.old.inside unit }
    ensures answer { result ≡ tick_result C.Check.W C.meaning cell.old.inside unit }
{
    match replayed(cell, Call::Tick { unit }) {
        Outcome::Refused(refusal) => Err(refusal),
        Outcome::Done | Outcome::Replied(_) => Ok(()),
    }
}

// Ticks, up to so many; the first one that is refused is the last. Behind one that sends a frame every tick would be refused.
fn ticks<C: Check>(cell: &mut Cell<C>, unit: u8, times: Times) -> UnitResult
    ensures state { cell.new.inside ≡ (cell_ticks C.Check.W C.meaning times.count unit cell.old.inside).inside }
    ensures answer { said_of result ≡ ticks_said C.Check.W C.meaning times.count unit cell.old.inside }
{
    for taken in 0..times.count {
        match tick_once(cell, unit) {
            Ok(()) => {}
            Err(refusal) if taken == 0 => return Err(Refusal::Cell(refusal)),
            Err(_) => {
                return Ok(UnitAnswer::Ticks {
                    taken,
                    sent: aired(cell),
                });
            }
        }
    }
    Ok(UnitAnswer::Ticks {
        taken: times.count,
        sent: aired(cell),
    })
}

impl<C: Check> Watched<C> {
    fn command(&mut self, unit: u8, room: u8, host: &[u8]) -> UnitResult
        ensures after { self.new ≡ watched_after C.Check.W C.meaning self.old unit (command_call room host.now) }
        ensures answer { said_of result ≡ said_by (outcome C.Check.W C.meaning self.old.cell.inside (law_command unit host.now room)) }
    {
        let waiting = waiting(&self.cell, unit).unwrap_or(0);
        let outcome = replayed(&mut self.cell, Call::Command { unit, host, room });
        if let Outcome::Replied(reply) = &outcome {
            self.counts.command(unit, host, waiting, reply.bytes());
        }
        answered(outcome)
    }

    fn tick(&mut self, unit: u8, times: Times) -> UnitResult
        ensures after { self.new ≡ watched_after C.Check.W C.meaning self.old unit (tick_call times.count) }
        ensures answer { said_of result ≡ ticks_said C.Check.W C.meaning times.count unit self.old.cell.inside }
    {
        let before = gave_up(&self.cell, unit);
        let result = ticks(&mut self.cell, unit, times);
        if !before && gave_up(&self.cell, unit) {
            self.counts.give_up(unit);
        }
        result
    }

    // Does what a line asks of a unit of the cell.
    pub(crate) fn call(&mut self, unit: u8, call: &UnitCall) -> Result<UnitResult, Lack>
        ensures after { self.new ≡ watched_after C.Check.W C.meaning self.old unit (called call.now) }
        ensures answer { Says result (watched_said C.Check.W C.meaning self.old unit (called call.now)) }
    {
        match call {
            UnitCall::Command { room, bytes } => Ok(self.command(unit, *room, bytes)),
            UnitCall::Ce { high } => Ok(answered(replayed(
                &mut self.cell,
                Call::Ce { unit, high: *high },
            ))),
            UnitCall::Irq => match self.cell.irq_is_low(unit) {
                Some(is_low) => Ok(Ok(UnitAnswer::Pin { is_low })),
                None => Err(Lack::NotInCell),
            },
            UnitCall::Tick { times } => Ok(self.tick(unit, *times)),
        }
    }

    // The frame on the air has a fate.
    pub(crate) fn carry(&mut self, fate: u8, start: u16, pattern: u16) -> UnitResult
        ensures after { self.new ≡ carried_on C.Check.W C.meaning self.old fate start pattern }
        ensures answer { said_of result ≡ carry_said C.Check.W C.meaning self.old.cell.inside fate start pattern }
    {
        let call = Call::Carry {
            fate,
            start: usize::from(start),
            pattern,
        };
        match replayed(&mut self.cell, call) {
            Outcome::Refused(refusal) => Err(Refusal::Cell(refusal)),
            _ => Ok(UnitAnswer::Heard {
                answer: aired(&self.cell),
            }),
        }
    }
}
