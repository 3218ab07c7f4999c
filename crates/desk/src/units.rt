// The desk: eight places, for the check in force.
ghost use Rattle.std.specs.Prelude.{◌≡◌};
ghost use Rattle.requests.specs.Lines.{asked_of, called};
ghost use Rattle.requests.specs.Lines.{Gives};
ghost use Rattle.desk.specs.Answers.{said_of, Says, SaysOr};
ghost use Rattle.desk.specs.Slots.{line_after, line_said, call_after, call_said};
ghost use Rattle.desk.specs.Desks.{slot_at, with_slot, no_desk, desk_after, desk_said, desk_called, desk_answer, desk_carried, desk_carry_said, kind_of, no_units, units_after, units_said, units_called, units_answer, units_carried, units_carry_said, units_made, units_make_said, desk_counts, desk_waiting, units_counts, units_waiting, Elsewhere, KeptUnlessDone};
ghost use Rattle.desk.specs.Making.{IfSettled};

use crate::answer::{UnitAnswer, UnitResult};
use crate::cell_calls::waiting;
use crate::counts::Counts;
use crate::slot::{AnyUnit, Desk, Units};
use bench::Bench;
use checks::Check;
use requests::{Cannot, Kind, Label, Lack, Stop, UnitCall, UnitLine};
use std::alloc::Global;
use std::array;

// Does what a line asks of the unit in a place.
fn carry_out<C: Check>(slot: &mut Option<AnyUnit<C>>, line: &UnitLine) -> Result<UnitResult, Lack>
    ensures after { slot.new ≡ line_after C.Check.W C.meaning (asked_of line.now) slot.old }
    ensures answer { Says result (line_said C.Check.W C.meaning (asked_of line.now) slot.old) }
{
    let unit = slot.as_mut().ok_or(Lack::NoUnit);
    match line {
        UnitLine::Bench => {
            *slot = Some(AnyUnit::Bench(Bench::new()));
            Ok(Ok(UnitAnswer::Done))
        }
        UnitLine::Load { profile } => unit?.load(profile),
        UnitLine::Check => unit?.check(),
        UnitLine::Box => unit?.close(),
        UnitLine::Hear { bits, bytes } => unit?.hear(*bits, bytes),
    }
}

// The same of a line that names the unit by its number.
fn serve<C: Check>(slot: &mut Option<AnyUnit<C>>, call: &UnitCall) -> Result<UnitResult, Lack>
    ensures after { slot.new ≡ call_after C.Check.W C.meaning (called call.now) slot.old }
    ensures answer { Says result (call_said C.Check.W C.meaning (called call.now) slot.old) }
{
    let unit = slot.as_mut().ok_or(Lack::NoUnit)?;
    match call {
        UnitCall::Command { room, bytes } => unit.command(*room, bytes),
        UnitCall::Ce { high } => unit.ce(*high),
        UnitCall::Irq => unit.irq(),
        UnitCall::Tick { times } => unit.tick(*times),
    }
}

impl<C: Check> Desk<C> {
    fn new() -> Desk<C>
        ensures { result ≡ no_desk }
    {
        Desk {
            slots: array::from_fn(|_| None),
            cell: None,
        }
    }

    fn carry_out(&mut self, label: Label, line: &UnitLine) -> Result<UnitResult, Lack>
        ensures after { self.new ≡ desk_after C.Check.W C.meaning self.old label.place (asked_of line.now) }
        ensures answer { Says result (desk_said C.Check.W C.meaning self.old label.place (asked_of line.now)) }
    {
        if self.cell.is_some() {
            return Err(Lack::InCell);
        }
        carry_out(&mut self.slots[usize::from(label.place)], line)
    }

    fn call(&mut self, unit: u8, call: &UnitCall) -> Result<UnitResult, Lack>
        ensures after { self.new ≡ desk_called C.Check.W C.meaning self.old unit (called call.now) }
        ensures answer { Says result (desk_answer C.Check.W C.meaning self.old unit (called call.now)) }
    {
        match &mut self.cell {
            Some(watched) => watched.call(unit, call),
            None => self.call_outside(unit, call),
        }
    }

    // Without a cell a number names the unit under that label.
    fn call_outside(&mut self, unit: u8, call: &UnitCall) -> Result<UnitResult, Lack>
        ensures after { self.new ≡ with_slot self.old unit (call_after C.Check.W C.meaning (called call.now) (slot_at self.old unit)) }
        ensures answer { Says result (call_said C.Check.W C.meaning (called call.now) (slot_at self.old unit)) }
    {
        let Ok(label) = Label::try_from(u64::from(unit)) else {
            return Err(Lack::NoUnit);
        };
        serve(&mut self.slots[usize::from(label.place)], call)
    }

    fn carry(&mut self, fate: u8, start: u16, pattern: u16) -> Result<UnitResult, Cannot>
        ensures after { self.new ≡ desk_carried C.Check.W C.meaning self.old fate start pattern }
        ensures answer { SaysOr result (desk_carry_said C.Check.W C.meaning self.old fate start pattern) }
    {
        match &mut self.cell {
            Some(watched) => Ok(watched.carry(fate, start, pattern)),
            None => Err(Cannot::NoCell),
        }
    }
}

impl<C> Desk<C> {
    fn counts(&self) -> Option<Counts>
        ensures { result ≡ desk_counts self.now }
    {
        match &self.cell {
            Some(watched) => Some(watched.counts),
            None => None,
        }
    }

    fn waiting(&self, unit: u8) -> Option<usize>
        ensures { result ≡ desk_waiting self.now unit }
    {
        match &self.cell {
            Some(watched) => waiting(&watched.cell, unit),
            None => None,
        }
    }
}

impl Units {
    // No unit under any label.
    pub fn new(kind: Kind) -> Units
        ensures { result ≡ no_units kind }
    {
        match kind {
            Kind::Crc8 => Units::Crc8(Desk::new()),
            Kind::Crc16 => Units::Crc16(Desk::new()),
        }
    }

    // The check in force.
    pub fn kind(&self) -> Kind
        ensures { result ≡ kind_of self.now }
    {
        match self {
            Units::Crc8(_) => Kind::Crc8,
            Units::Crc16(_) => Kind::Crc16,
        }
    }

    // Does what a line asks of the unit under a label, or says what the unit lacks. This and the next are never inlined: a large answer
    // would be copied once for each arm that it comes from.
    #[inline(never)]
    pub fn carry_out(&mut self, label: Label, line: &UnitLine) -> Result<UnitResult, Lack>
        ensures after { self.new ≡ units_after self.old label.place (asked_of line.now) }
        ensures answer { Says result (units_said self.old label.place (asked_of line.now)) }
        ensures elsewhere { Elsewhere self.old label.place self.new }
        ensures kept { KeptUnlessDone (units_said self.old label.place (asked_of line.now)) self.old self.new }
    {
        self.line_passed_on(label, line)
    }

    // The same of a line that names the unit by its number.
    #[inline(never)]
    pub fn call(&mut self, unit: u8, call: &UnitCall) -> Result<UnitResult, Lack>
        ensures after { self.new ≡ units_called self.old unit (called call.now) }
        ensures answer { Says result (units_answer self.old unit (called call.now)) }
        ensures elsewhere { Elsewhere self.old unit self.new }
        ensures kept { KeptUnlessDone (units_answer self.old unit (called call.now)) self.old self.new }
    {
        self.call_passed_on(unit, call)
    }

    // Apart from `carry_out`, so that what it says of the other places follows from one promise and not once for each check.
    fn line_passed_on(&mut self, label: Label, line: &UnitLine) -> Result<UnitResult, Lack>
        ensures after { self.new ≡ units_after self.old label.place (asked_of line.now) }
        ensures answer { Says result (units_said self.old label.place (asked_of line.now)) }
    {
        match self {
            Units::Crc8(desk) => desk.carry_out(label, line),
            Units::Crc16(desk) => desk.carry_out(label, line),
        }
    }

    // Apart from `call`, likewise.
    fn call_passed_on(&mut self, unit: u8, call: &UnitCall) -> Result<UnitResult, Lack>
        ensures after { self.new ≡ units_called self.old unit (called call.now) }
        ensures answer { Says result (units_answer self.old unit (called call.now)) }
    {
        match self {
            Units::Crc8(desk) => desk.call(unit, call),
            Units::Crc16(desk) => desk.call(unit, call),
        }
    }

    // Makes a cell of the boxed units under the labels 0, 1, 2, .. up to the first without one. After a refusal they stay; where
    // there is no memory for their move they may be gone.
    pub fn make(&mut self, heap: Global) -> Result<UnitResult, Stop>
        ensures after { IfSettled result (self.new ≡ units_made self.old) }
        ensures answer { Gives said_of result (units_make_said self.old) }
    {
        match self {
            Units::Crc8(desk) => desk.make(heap),
            Units::Crc16(desk) => desk.make(heap),
        }
    }

    // The frame on the air has a fate.
    pub fn carry(&mut self, fate: u8, start: u16, pattern: u16) -> Result<UnitResult, Cannot>
        ensures after { self.new ≡ units_carried self.old fate start pattern }
        ensures answer { SaysOr result (units_carry_said self.old fate start pattern) }
    {
        match self {
            Units::Crc8(desk) => desk.carry(fate, start, pattern),
            Units::Crc16(desk) => desk.carry(fate, start, pattern),
        }
    }

    // What the calls on the cell came to, if there is a cell.
    pub fn counts(&self) -> Option<Counts>
        ensures { result ≡ units_counts self.now }
    {
        match self {
            Units::Crc8(desk) => desk.counts(),
            Units::Crc16(desk) => desk.counts(),
        }
    }

    // How many payloads wait at a unit of the cell, if there are a cell and such a unit.
    pub fn waiting(&self, unit: u8) -> Option<usize>
        ensures { result ≡ units_waiting self.now unit }
    {
        match self {
            Units::Crc8(desk) => desk.waiting(unit),
            Units::Crc16(desk) => desk.waiting(unit),
        }
    }
}
