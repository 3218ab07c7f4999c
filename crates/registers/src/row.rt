use crate::register::Register;

// What a one-byte register takes when it is written; a five-byte one takes everything.
#[derive(Clone, Copy)]
pub enum Allowed {
    ReadOnly,
    All,
    // these bits are clear
    Clear(u8),
    // from the first to the second, both included
    Range(u8, u8),
    // bits 7, 6, 4 are clear, and not both rate bits, 5 and 3, stand
    RfSetup,
}

// One row of the table of registers.
#[derive(Clone, Copy)]
pub struct Row {
    pub register: Register,
    pub name: &'static str,
    // how many bytes it holds
    pub size: usize,
    // each of its bytes at reset
    pub reset: u8,
    pub allowed: Allowed,
}
