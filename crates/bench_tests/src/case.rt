// What the tables are made of.

// The two kinds of check that a unit can be boxed for.
#[derive(Clone, Copy)]
pub enum Kind {
    Crc8,
    Crc16,
}

// What was done to a new unit before the call.
#[derive(Clone, Copy)]
pub enum Start {
    // nothing: every register is at reset
    Reset,
    // each register that a profile may name was given another value than at reset
    Written,
}

#[derive(Clone, Copy)]
pub enum Call {
    // a host command, with room for so many bytes of reply
    Command(&'static [u8], usize),
    // loading a profile
    Load(&'static [u8]),
    // how many fields a profile has
    Count(&'static [u8]),
    // the field of a profile for the register at an address
    Field(&'static [u8], u8),
    // the check call
    Check(Kind),
}

// A call that is refused, with the number and, by its address, the register of the refusal.
#[derive(Clone, Copy)]
pub struct Refused {
    pub start: Start,
    pub call: Call,
    pub number: u8,
    pub register: Option<u8>,
}

// How a register reads: the length of the reply, and a buffer of eight bytes that holds it, of either start.
#[derive(Clone, Copy)]
pub struct Reading {
    pub length: usize,
    pub at_reset: [u8; 8],
    pub written: [u8; 8],
}

// A value for a register of one byte, by its address; the map of a profile that names that register alone; and whether the
// register takes the value.
#[derive(Clone, Copy)]
pub struct Value {
    pub register: u8,
    pub map: [u8; 4],
    pub value: u8,
    pub taken: bool,
}

// A value for a register of five bytes.
#[derive(Clone, Copy)]
pub struct Wide {
    pub register: u8,
    pub bytes: [u8; 5],
}

#[derive(Clone, Copy)]
pub struct Field {
    pub register: u8,
    pub bytes: &'static [u8],
}

// A profile with all of its fields, and the register for which it cannot be loaded, if there is one.
#[derive(Clone, Copy)]
pub struct Profile {
    pub bytes: &'static [u8],
    pub count: u32,
    pub fields: &'static [Field],
    pub refused: Option<u8>,
}

// What registers hold, CONFIG for either kind of check, and the lowest register with a fault.
#[derive(Clone, Copy)]
pub struct Setup {
    pub config_crc8: u8,
    pub config_crc16: u8,
    pub en_aa: u8,
    pub en_rxaddr: u8,
    pub setup_aw: u8,
    pub rx_addr_p0: [u8; 5],
    pub rx_addr_p1: [u8; 5],
    // RX_ADDR_P2 to RX_ADDR_P5
    pub low_bytes: [u8; 4],
    pub tx_addr: [u8; 5],
    // RX_PW_P0 to RX_PW_P5
    pub lengths: [u8; 6],
    pub fault: Option<u8>,
}
