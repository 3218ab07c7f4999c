// The calls of a cell at one of its units.
ghost use Rattle.std.specs.Prelude.{◌≡◌, cond, length, None, Ok, nat_lt};
ghost use Rattle.unit.specs.Ticking.{tick_answer, tick_after};
ghost use Rattle.cell.specs.Air.{air_of};
ghost use Rattle.cell.specs.Calls.{command_result, commanded, command_reply, ce_result, leveled, no_such, done_if, tick_bits, tick_result, ticked};
ghost use Rattle.cell.specs.Refusals.{of_the_unit};
ghost use Rattle.cell.specs.Pins.{irq_at};

use crate::air::Frame;
use crate::airing::LONGEST_FRAME;
use crate::answering::of_the_unit;
use crate::parts::Cell;
use crate::refusal::{Cause, Refusal};
use checks::Check;
use unit::State;

// How many places a cell has; clauses say the number.
const PLACES: usize = 7;

// The place of a unit of that number, if there can be one.
fn place_of(unit: u8) -> Result<usize, Refusal>
    ensures { result ≡ cond (nat_lt unit 7) (Ok unit) (no_such unit) }
{
    let place = usize::from(unit);
    if place < PLACES {
        Ok(place)
    } else {
        Err(Cause::NoSuchUnit.at(unit))
    }
}

// One tick of a unit; what it sends is put on the air, which is empty. Never inlined, so that the ticks that send nothing pay nothing for
// the bytes of a frame.
#[inline(never)]
fn tick<C: Check>(state: &mut State, unit: u8, air: &mut Option<Frame>) -> Result<(), Refusal>
    requires { air.old ≡ None }
    ensures answer { result ≡ done_if (of_the_unit unit (tick_answer C.Check.W C.meaning state.old 42)) }
    ensures state { state.new ≡ tick_after state.old 42 }
    ensures air { air.new ≡ air_of unit (tick_bits C.Check.W C.meaning state.old) }
{
    let mut bytes = [0; LONGEST_FRAME];
    let count = of_the_unit(unit, state.tick::<C>(&mut bytes))?;
    *air = Frame::aired(unit, count, bytes);
    Ok(())
}

impl<C: Check> Cell<C> {
    // The unit carries out a host command; the answer is the length of the reply.
    pub fn command(&mut self, unit: u8, host: &[u8], reply: &mut [u8]) -> Result<usize, Refusal>
        ensures answer { result ≡ command_result self.old.inside unit host.now (length reply.old) }
        ensures state { self.new.inside ≡ commanded self.old.inside unit host.now (length reply.old) }
        ensures reply { reply.new ≡ command_reply self.old.inside unit host.now reply.old }
    {
        let place = place_of(unit)?;
        match &mut self.inside.places.at[place] {
            None => Err(Cause::NoSuchUnit.at(unit)),
            Some(state) => of_the_unit(unit, state.command(host, reply)),
        }
    }

    // The CE pin of the unit has that level.
    pub fn ce(&mut self, unit: u8, high: bool) -> Result<(), Refusal>
        ensures answer { result ≡ ce_result self.old.inside unit }
        ensures state { self.new.inside ≡ leveled self.old.inside unit high }
    {
        let place = place_of(unit)?;
        match &mut self.inside.places.at[place] {
            None => Err(Cause::NoSuchUnit.at(unit)),
            Some(state) => of_the_unit(unit, state.ce(high)),
        }
    }

    // One tick of the unit; a frame that it sends is then on the air.
    pub fn tick(&mut self, unit: u8) -> Result<(), Refusal>
        ensures answer { result ≡ tick_result C.Check.W C.meaning self.old.inside unit }
        ensures state { self.new.inside ≡ ticked C.Check.W C.meaning self.old.inside unit }
    {
        let place = place_of(unit)?;
        match &mut self.inside.places.at[place] {
            None => Err(Cause::NoSuchUnit.at(unit)),
            Some(_) if self.inside.air.is_some() => Err(Cause::AirHoldsFrame.at(unit)),
            Some(state) => {
                if state.tick_if_uneventful() {
                    return Ok(());
                }
                tick::<C>(state, unit, &mut self.inside.air)
            }
        }
    }

    // Whether the IRQ pin of the unit is low, if there is the unit.
    pub fn irq_is_low(&self, unit: u8) -> Option<bool>
        ensures { result ≡ irq_at self.now.inside unit }
    {
        self.inside
            .places
            .at
            .get(usize::from(unit))?
            .as_ref()
            .map(State::irq_is_low)
    }
}
