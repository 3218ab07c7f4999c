// The value of one register: its bytes, the lowest first, and 0 behind them. Fixed memory, since the engine allocates nothing;
// how many of the bytes count is the size in the table of registers, so no length stands beside them.
#[derive(Clone, Copy)]
pub(crate) struct Value {
    pub(crate) bytes: [u8; 5],
}

// The value of each register, by its address; an array, since the engine allocates nothing. STATUS, OBSERVE_TX and FIFO_STATUS keep their values of a unit at rest here:
// how they read in a unit at work follows from its flags, counters and queues.
#[derive(Clone, Copy)]
pub struct Registers {
    pub(crate) held: [Value; 24],
}
