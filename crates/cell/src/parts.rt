use crate::air::Frame;
use std::marker::PhantomData;
use unit::State;

// The places of the units: the receiver's is 0, those of the senders are 1 to 6, from 1 on without a gap. A fixed array, since
// nothing here has a heap.
#[derive(Drop)]
pub struct Places {
    pub at: [Option<State>; 7],
}

// All that a cell holds, apart from its kind of check.
#[derive(Drop)]
pub struct Inside {
    pub places: Places,
    // at most one frame is on the air between the units
    pub air: Option<Frame>,
}

// A cell: one receiver, one to six senders, and the air between them.
#[derive(Drop)]
pub struct Cell<C> {
    pub inside: Inside,
    pub kind: PhantomData<C>,
}
