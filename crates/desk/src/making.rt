// A cell made of the boxed units.
ghost use Rattle.std.specs.Prelude.{◌≡◌, ◌≤◌, length, IfOk, OnOk};
ghost use Rattle.requests.specs.Lines.{Gives};
ghost use Rattle.desk.specs.Answers.{said_of};
ghost use Rattle.desk.specs.Making.{boxed_first, without_boxed, desk_made, desk_make_said, with_boxed, IfSettled};

use crate::answer::{Refusal, UnitAnswer, UnitResult};
use crate::counts::Counts;
use crate::slot::{AnyUnit, Desk, Watched};
use cell::Cell;
use checks::Check;
use requests::{Cannot, Stop};
use std::alloc::{AllocError, Global};
use unit::Boxed;

// Takes the boxed units out of their places, up to the first place without one.
fn take_boxed<C>(
    heap: Global,
    slots: &mut [Option<AnyUnit<C>>],
) -> Result<Vec<Boxed<C>>, AllocError>
    ensures units { IfOk result (λ units. units.items ≡ boxed_first slots.old) }
    ensures left { OnOk result (slots.new ≡ without_boxed slots.old) }
{
    let mut units = Vec::new(heap);
    for i in 0..slots.len() {
        match slots[i].take() {
            Some(AnyUnit::Boxed(unit)) => units.push(unit)?,
            Some(AnyUnit::Bench(unit)) => {
                slots[i] = Some(AnyUnit::Bench(unit));
                return Ok(units);
            }
            None => return Ok(units),
        }
    }
    Ok(units)
}

// Puts boxed units back into their places, the last one first, since a vector hands out its last element.
fn put_back<C>(slots: &mut [Option<AnyUnit<C>>], mut units: Vec<Boxed<C>>)
    requires { length units.items ≤ length slots.old }
    ensures { slots.new ≡ with_boxed units.items slots.old }
{
    while let Some(unit) = units.pop() {
        slots[units.len()] = Some(AnyUnit::Boxed(unit));
    }
    units.destroy_empty();
}

impl<C: Check> Desk<C> {
    pub(crate) fn make(&mut self, heap: Global) -> Result<UnitResult, Stop>
        ensures after { IfSettled result (self.new ≡ desk_made C.Check.W self.old) }
        ensures answer { Gives said_of result (desk_make_said C.Check.W self.old) }
    {
        if self.cell.is_some() {
            return Err(Cannot::CellIsMade.into());
        }
        let units = take_boxed(heap, &mut self.slots)?;
        match Cell::make(units) {
            Ok(cell) => {
                self.cell = Some(Watched {
                    cell,
                    counts: Counts::none(),
                });
                Ok(Ok(UnitAnswer::Done))
            }
            Err(unmade) => {
                put_back(&mut self.slots, unmade.units);
                Ok(Err(Refusal::Cell(unmade.refusal)))
            }
        }
    }
}
