// What a pipe remembers of the last payload taken on it: its packet identity and its check. The identity is no `Pid` here: what is
// remembered is compared with what a packet carries, and a packet is defined by numbers (a number above 3 is no `Pid`).
#[derive(Clone, Copy, Debug, PartialEq, Eq)]
pub struct Memory {
    pub pid: u8,
    pub check: u16,
}

// The memories of the six pipes, by their numbers; a pipe that took nothing yet has none. A fixed array, since a unit has no heap.
#[derive(Clone, Copy, Debug, PartialEq, Eq)]
pub struct Memories {
    pub at: [Option<Memory>; 6],
}
