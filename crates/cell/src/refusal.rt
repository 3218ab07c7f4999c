use commands::Refusal as UnitRefusal;

// Why a cell refuses a call.
#[derive(Clone, Copy, Debug, PartialEq, Eq)]
pub enum Cause {
    // the unit's own refusal
    Unit(UnitRefusal),
    // the cell cannot be made
    CannotBeMade,
    NoSuchUnit,
    // a tick while the air holds a frame
    AirHoldsFrame,
    // a carry on empty air
    AirEmpty,
    // a fate above 3, or a pattern that is not allowed
    FateNotAllowed,
}

// Which layer refused.
#[derive(Clone, Copy, Debug, PartialEq, Eq)]
pub enum Layer {
    Unit,
    Cell,
}

// A refusal by a cell, with the unit that it names: the one that was called, or is at fault; 0 for a carry (docs/CELL.md). A
// number and not a place: it is the one that the call gave, which no unit need have.
#[derive(Clone, Copy, Debug, PartialEq, Eq)]
pub struct Refusal {
    pub unit: u8,
    pub cause: Cause,
}
