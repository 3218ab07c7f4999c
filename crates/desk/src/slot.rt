use crate::counts::Counts;
use bench::Bench;
use cell::Cell;
use checks::{Crc8, Crc16};
use unit::Boxed;

// A unit: on the bench, or boxed for good.
#[derive(Drop)]
pub enum AnyUnit<C> {
    Bench(Bench),
    Boxed(Boxed<C>),
}

// A cell, and what its calls came to.
#[derive(Drop)]
pub struct Watched<C> {
    pub cell: Cell<C>,
    pub counts: Counts,
}

// Eight places for a unit, by their labels; and a cell, once one is made: lines are then for it.
#[derive(Drop)]
pub struct Desk<C> {
    pub slots: [Option<AnyUnit<C>>; 8],
    pub cell: Option<Watched<C>>,
}

// The units, for the check in force. A script names the check while it runs, so the type of the check is chosen by a match.
#[derive(Drop)]
pub enum Units {
    Crc8(Desk<Crc8>),
    Crc16(Desk<Crc16>),
}
