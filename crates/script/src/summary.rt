// What the calls on the cell came to, for people: a line for each sender, and one for the pipes; each begins with blanks.
ghost use Rattle.std.specs.Prelude.{◌≡◌, Some, slice_index};
ghost use Rattle.script.specs.Summary.{sender_at, sender_text, sender_row, pipes_row, rows_text, summary_text};

use desk::{Counts, Units};
use std::fmt;

// The count at a place.
fn at(counts: &[u64], place: u8) -> u64
    ensures { result ≡ slice_index counts.now place }
{
    counts.get(usize::from(place)).copied().unwrap_or(0)
}

// What became of the payloads of a sender.
#[derive(Clone, Copy)]
struct Sender {
    unit: u8,
    written: u64,
    sent: u64,
    given_up: u64,
    flushed: u64,
    waiting: usize,
}

impl fmt::Display for Sender {
    ghost output = { λ x. Some (sender_text x) };

    fn fmt<W: fmt::Write>(&self, f: &mut fmt::Formatter<W>) -> fmt::Result {
        let Sender {
            unit,
            written,
            sent,
            given_up,
            flushed,
            waiting,
        } = *self;
        write!(f, "     sender {unit}: {written} written, {sent} sent, ")?;
        writeln!(
            f,
            "{given_up} given up, {flushed} flushed, {waiting} still waiting"
        )
    }
}

// A sender of the cell, if there is one of that number.
#[tactic(auto, unfolding(crate::specs::Summary::sender_at))]
fn sender_at(units: &Units, counts: &Counts, unit: u8) -> Option<Sender>
    ensures { result ≡ sender_at units.now counts.now unit }
{
    let waiting = units.waiting(unit)?;
    let written = at(&counts.written, unit);
    let flushed = at(&counts.flushed, unit);
    Some(Sender {
        unit,
        written,
        sent: written
            .saturating_sub(flushed)
            .saturating_sub(waiting as u64),
        given_up: at(&counts.given_up, unit),
        flushed,
        waiting,
    })
}

// The row of a sender, if there is one.
#[derive(Clone, Copy)]
struct Row(Option<Sender>);

impl fmt::Display for Row {
    ghost output = { λ x. Some (sender_row x.0) };

    #[tactic(auto, unfolding(crate::specs::Summary::sender_row))]
    fn fmt<W: fmt::Write>(&self, f: &mut fmt::Formatter<W>) -> fmt::Result {
        match self.0 {
            Some(sender) => write!(f, "{sender}"),
            None => Ok(()),
        }
    }
}

// How many payloads were read, by the pipes.
#[derive(Clone, Copy)]
struct Pipes<'a>(&'a [u64; 6]);

impl fmt::Display for Pipes<'_> {
    ghost output = { λ x. Some (pipes_row x.0.now) };

    #[tactic(auto, unfolding(crate::specs::Summary::pipes_row))]
    fn fmt<W: fmt::Write>(&self, f: &mut fmt::Formatter<W>) -> fmt::Result {
        let [a, b, c, d, e, g] = *self.0;
        writeln!(f, "     read on pipes 0 to 5: {a} {b} {c} {d} {e} {g}")
    }
}

// A row for each sender of the cell, and one for the pipes.
#[derive(Clone, Copy)]
struct Rows<'a> {
    units: &'a Units,
    counts: Counts,
}

impl fmt::Display for Rows<'_> {
    ghost output = { λ x. Some (rows_text x.units.now x.counts) };

    fn fmt<W: fmt::Write>(&self, f: &mut fmt::Formatter<W>) -> fmt::Result {
        let units = self.units;
        let counts = &self.counts;
        write!(
            f,
            "{}{}{}",
            Row(sender_at(units, counts, 1)),
            Row(sender_at(units, counts, 2)),
            Row(sender_at(units, counts, 3))
        )?;
        write!(
            f,
            "{}{}{}{}",
            Row(sender_at(units, counts, 4)),
            Row(sender_at(units, counts, 5)),
            Row(sender_at(units, counts, 6)),
            Pipes(&counts.read)
        )
    }
}

// Nothing where there is no cell.
#[derive(Clone, Copy)]
pub struct Summary<'a>(pub &'a Units);

impl fmt::Display for Summary<'_> {
    ghost output = { λ x. Some (summary_text x.0.now) };

    fn fmt<W: fmt::Write>(&self, f: &mut fmt::Formatter<W>) -> fmt::Result {
        let units = self.0;
        match units.counts() {
            Some(counts) => write!(f, "{}", Rows { units, counts }),
            None => Ok(()),
        }
    }
}
