use crate::entry::{Outgoing, Received};
use crate::memory::Memories;
use frames::Pid;
use modes::Core;
use queue::Queue;
use registers::{Register, Registers};
use std::marker::PhantomData;

// All that a boxed unit holds, apart from its kind of check.
#[derive(Drop)]
pub struct State {
    // as they were when the unit was boxed; CONFIG goes on in the core
    pub registers: Registers,
    // the lowest register with a fault, found when the unit was boxed: it then refuses every call
    pub fault: Option<Register>,
    pub core: Core,
    // the packet identity of the payload written last
    pub pid: Pid,
    pub tx: Queue<Outgoing>,
    pub rx: Queue<Received>,
    pub memories: Memories,
}

// A boxed unit: a bench unit that was closed for good, with the kind of check that all of its frames have.
#[derive(Drop)]
pub struct Boxed<C> {
    pub state: State,
    pub kind: PhantomData<C>,
}
