// The six pipes of a receiver; a sender uses P0.
#[derive(Clone, Copy, Debug, PartialEq, Eq)]
pub enum Pipe {
    P0,
    P1,
    P2,
    P3,
    P4,
    P5,
}

// No pipe has the number.
#[derive(Clone, Copy, Debug, PartialEq, Eq)]
pub struct NoSuchPipe;

// The rate of the radio.
#[derive(Clone, Copy, Debug, PartialEq, Eq)]
pub enum Rate {
    Kbps250,
    Mbps1,
    Mbps2,
}
