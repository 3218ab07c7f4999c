// What the calls on a cell came to: counts for people, which go as far as their type.
ghost use Rattle.std.specs.Prelude.{◌≡◌, ◌/◌, ◌%◌, slice_index};
ghost use Rattle.commands.specs.Decode.{ordered};
ghost use Rattle.desk.specs.Counts.{no_counts, added, after_command, one_given_up};

use commands::{Command, decode};

#[derive(Clone, Copy, Debug, PartialEq, Eq)]
pub struct Counts {
    // payloads that a sender wrote, that it flushed, and how often it gave one up; by the units' numbers
    pub written: [u64; 7],
    pub flushed: [u64; 7],
    pub given_up: [u64; 7],
    // payloads read, by the pipes' numbers
    pub read: [u64; 6],
}

// Adds to the count at a place, if there is such a place.
fn add(counts: &mut [u64], place: usize, n: u64)
    ensures { counts.new ≡ added counts.old place n }
{
    if place < counts.len() {
        counts[place] = counts[place].saturating_add(n);
    }
}

// The pipe that the STATUS of a reply names.
fn pipe_in(reply: &[u8]) -> usize
    ensures { result ≡ slice_index reply.now 0 / 2 % 8 }
{
    usize::from(reply.first().copied().unwrap_or(0) / 2 % 8)
}

impl Counts {
    pub(crate) fn none() -> Counts
        ensures { result ≡ no_counts }
    {
        Counts {
            written: [0; 7],
            flushed: [0; 7],
            given_up: [0; 7],
            read: [0; 6],
        }
    }

    // A host command was accepted by a unit, of whose payloads so many waited before it.
    pub(crate) fn command(&mut self, unit: u8, host: &[u8], waiting: usize, reply: &[u8])
        ensures { self.new ≡ after_command self.old unit (ordered host.now) waiting reply.now }
    {
        let place = usize::from(unit);
        match decode(host) {
            Ok(Command::WritePayload(_)) => add(&mut self.written, place, 1),
            Ok(Command::FlushTx(_)) => add(&mut self.flushed, place, waiting as u64),
            Ok(Command::ReadPayload(_)) => add(&mut self.read, pipe_in(reply), 1),
            _ => {}
        }
    }

    pub(crate) fn give_up(&mut self, unit: u8)
        ensures { self.new ≡ one_given_up self.old unit }
    {
        add(&mut self.given_up, usize::from(unit), 1);
    }
}
