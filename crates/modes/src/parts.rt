use commands::Flags;

// A receiver listens and answers; a sender sends and waits for the answer.
#[derive(Clone, Copy, Debug, PartialEq, Eq)]
pub enum Role {
    Sender,
    Receiver,
}

// What a unit is doing, with the ticks that are left of it.
#[derive(Clone, Copy, Debug, PartialEq, Eq)]
pub enum Mode {
    Shutdown,
    Starting { left: u16 },
    Standby,
    IdleTx,
    Tuning { left: u16 },
    Rx,
    Waiting { left: u16 },
}

// ARC_CNT, how often the payload under way was sent again, and PLOS_CNT, how many payloads were given up.
#[derive(Clone, Copy, Debug, PartialEq, Eq)]
pub struct Counts {
    pub again: u8,
    pub lost: u8,
}

// ARD and ARC of SETUP_RETR: the wait for an acknowledgement, and how often a frame is sent again.
#[derive(Clone, Copy, Debug, PartialEq, Eq)]
pub struct Retry {
    pub delay: u8,
    pub count: u8,
}

// The plain part of a boxed unit that runs: the level of CE, the mode, CONFIG, the flags and the counters.
// CONFIG is kept here, since four of its bits can be written in the box. Role and retries are not: they stand in the registers,
// which boxing fixed, and a second copy here would have to be kept equal to them. So the calls that need them take them.
#[derive(Clone, Copy, Debug, PartialEq, Eq)]
pub struct Core {
    pub ce: bool,
    pub mode: Mode,
    pub config: u8,
    pub flags: Flags,
    pub counts: Counts,
}
