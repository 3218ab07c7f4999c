// The refusals of a cell as numbers and texts.
ghost use Rattle.std.specs.Prelude.{◌≡◌, Some};
ghost use Rattle.cell.specs.Refusals.{cause_number, layer_of};
ghost use Rattle.cell.specs.Texts.{cause_text};

use crate::refusal::{Cause, Layer, Refusal};
use registers::Register;
use std::error::Error;
use std::fmt;

impl Cause {
    // The number that stands for the cause.
    pub fn number(self) -> u8
        ensures { result ≡ (cause_number self).0 }
    {
        match self {
            Cause::Unit(refusal) => refusal.number(),
            Cause::CannotBeMade => 13,
            Cause::NoSuchUnit => 14,
            Cause::AirHoldsFrame => 15,
            Cause::AirEmpty => 16,
            Cause::FateNotAllowed => 17,
        }
    }

    // The register that the cause names, if it names one.
    pub fn register(self) -> Option<Register>
        ensures { result ≡ (cause_number self).1 }
    {
        match self {
            Cause::Unit(refusal) => refusal.register(),
            _ => None,
        }
    }
}

impl Refusal {
    // Which layer refuses: the unit, or the cell itself. Not by the number: 18 is a unit's too.
    pub fn layer(self) -> Layer
        ensures { result ≡ layer_of self.cause }
    {
        match self.cause {
            Cause::Unit(_) => Layer::Unit,
            _ => Layer::Cell,
        }
    }
}

// Why the call is refused.
impl fmt::Display for Cause {
    ghost output = { λ e. Some (cause_text e) };

    fn fmt<W: fmt::Write>(&self, f: &mut fmt::Formatter<W>) -> fmt::Result {
        match self {
            Cause::Unit(refusal) => write!(f, "{refusal}"),
            Cause::CannotBeMade => f.write_str("the cell cannot be made"),
            Cause::NoSuchUnit => f.write_str("no such unit"),
            Cause::AirHoldsFrame => f.write_str("the air holds a frame"),
            Cause::AirEmpty => f.write_str("the air is empty"),
            Cause::FateNotAllowed => f.write_str("the fate is not allowed"),
        }
    }
}

// The words of its cause: number, layer and unit are asked for one by one.
impl fmt::Display for Refusal {
    ghost output = { λ e. Some (cause_text e.cause) };

    fn fmt<W: fmt::Write>(&self, f: &mut fmt::Formatter<W>) -> fmt::Result {
        write!(f, "{}", self.cause)
    }
}

impl Error for Cause {}

impl Error for Refusal {}
