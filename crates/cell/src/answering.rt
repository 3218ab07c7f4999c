// What a cell answers to a call.
ghost use Rattle.std.specs.Prelude.{◌≡◌, Err};
ghost use Rattle.cell.specs.Refusals.{refusal_of, of_the_unit};

use crate::refusal::{Cause, Refusal};
use commands::Refusal as UnitRefusal;

impl Cause {
    // The refusal with this cause, at a unit.
    pub(crate) fn at(self, unit: u8) -> Refusal
        ensures { result ≡ refusal_of unit self }
    {
        Refusal { unit, cause: self }
    }
}

// What a unit answered, as the cell's answer.
pub(crate) fn of_the_unit<X>(unit: u8, answer: Result<X, UnitRefusal>) -> Result<X, Refusal>
    ensures { result ≡ of_the_unit unit answer }
{
    answer.map_err(|refusal| Cause::Unit(refusal).at(unit))
}
