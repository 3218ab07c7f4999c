// The registers that show what a unit does, as they read now.
#[derive(Clone, Copy, Debug, PartialEq, Eq)]
pub struct Live {
    pub status: u8,
    pub observe_tx: u8,
    pub fifo_status: u8,
}
