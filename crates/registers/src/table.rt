ghost use Rattle.std.specs.Prelude.{◌≡◌, true, ◌⊎◌, Some, codes};
ghost use Rattle.registers.specs.Address.{address_of, registers, StandsAt};
ghost use Rattle.registers.specs.File.{initial};
ghost use Rattle.registers.specs.Table.{name_of, size_of, takes, is_read_only, entry_at, table};
ghost use Rattle.registers.specs.Rows.{permits, agree, Tells};

use crate::held::Value;
use crate::register::{NoSuchRegister, Register};
use crate::row::{Allowed, Row};
use std::error::Error;
use std::{array, fmt};

// Every register, by its address.
const TABLE: [Row; 24] = [
    Row {
        register: Register::Config,
        name: "CONFIG",
        size: 1,
        reset: 0x08,
        allowed: Allowed::Clear(0x80),
    },
    Row {
        register: Register::EnAa,
        name: "EN_AA",
        size: 1,
        reset: 0x3F,
        allowed: Allowed::Clear(0xC0),
    },
    Row {
        register: Register::EnRxaddr,
        name: "EN_RXADDR",
        size: 1,
        reset: 0x03,
        allowed: Allowed::Clear(0xC0),
    },
    Row {
        register: Register::SetupAw,
        name: "SETUP_AW",
        size: 1,
        reset: 0x03,
        allowed: Allowed::Range(0x01, 0x03),
    },
    Row {
        register: Register::SetupRetr,
        name: "SETUP_RETR",
        size: 1,
        reset: 0x03,
        allowed: Allowed::All,
    },
    Row {
        register: Register::RfCh,
        name: "RF_CH",
        size: 1,
        reset: 0x02,
        allowed: Allowed::Range(0x00, 0x7D),
    },
    Row {
        register: Register::RfSetup,
        name: "RF_SETUP",
        size: 1,
        reset: 0x0E,
        allowed: Allowed::RfSetup,
    },
    Row {
        register: Register::Status,
        name: "STATUS",
        size: 1,
        reset: 0x0E,
        allowed: Allowed::Clear(0x8F),
    },
    Row {
        register: Register::ObserveTx,
        name: "OBSERVE_TX",
        size: 1,
        reset: 0x00,
        allowed: Allowed::ReadOnly,
    },
    Row {
        register: Register::Reserved,
        name: "RESERVED",
        size: 1,
        reset: 0x00,
        allowed: Allowed::ReadOnly,
    },
    Row {
        register: Register::RxAddrP0,
        name: "RX_ADDR_P0",
        size: 5,
        reset: 0xE7,
        allowed: Allowed::All,
    },
    Row {
        register: Register::RxAddrP1,
        name: "RX_ADDR_P1",
        size: 5,
        reset: 0xC2,
        allowed: Allowed::All,
    },
    Row {
        register: Register::RxAddrP2,
        name: "RX_ADDR_P2",
        size: 1,
        reset: 0xC3,
        allowed: Allowed::All,
    },
    Row {
        register: Register::RxAddrP3,
        name: "RX_ADDR_P3",
        size: 1,
        reset: 0xC4,
        allowed: Allowed::All,
    },
    Row {
        register: Register::RxAddrP4,
        name: "RX_ADDR_P4",
        size: 1,
        reset: 0xC5,
        allowed: Allowed::All,
    },
    Row {
        register: Register::RxAddrP5,
        name: "RX_ADDR_P5",
        size: 1,
        reset: 0xC6,
        allowed: Allowed::All,
    },
    Row {
        register: Register::TxAddr,
        name: "TX_ADDR",
        size: 5,
        reset: 0xE7,
        allowed: Allowed::All,
    },
    Row {
        register: Register::RxPwP0,
        name: "RX_PW_P0",
        size: 1,
        reset: 0x00,
        allowed: Allowed::Range(0x00, 0x20),
    },
    Row {
        register: Register::RxPwP1,
        name: "RX_PW_P1",
        size: 1,
        reset: 0x00,
        allowed: Allowed::Range(0x00, 0x20),
    },
    Row {
        register: Register::RxPwP2,
        name: "RX_PW_P2",
        size: 1,
        reset: 0x00,
        allowed: Allowed::Range(0x00, 0x20),
    },
    Row {
        register: Register::RxPwP3,
        name: "RX_PW_P3",
        size: 1,
        reset: 0x00,
        allowed: Allowed::Range(0x00, 0x20),
    },
    Row {
        register: Register::RxPwP4,
        name: "RX_PW_P4",
        size: 1,
        reset: 0x00,
        allowed: Allowed::Range(0x00, 0x20),
    },
    Row {
        register: Register::RxPwP5,
        name: "RX_PW_P5",
        size: 1,
        reset: 0x00,
        allowed: Allowed::Range(0x00, 0x20),
    },
    Row {
        register: Register::FifoStatus,
        name: "FIFO_STATUS",
        size: 1,
        reset: 0x11,
        allowed: Allowed::ReadOnly,
    },
];

impl Allowed {
    // Whether a one-byte register with this rule takes `value`.
    fn permits(self, value: u8) -> bool
        ensures { result ≡ permits self value }
    {
        match self {
            Allowed::ReadOnly => false,
            Allowed::All => true,
            Allowed::Clear(bits) => value & bits == 0,
            Allowed::Range(low, high) => (low..=high).contains(&value),
            Allowed::RfSetup => value & 0xD0 == 0 && value & 0x28 != 0x28,
        }
    }
}

// The whole table: row by row it agrees with the definition of the registers.
fn rows() -> &'static [Row; 24]
    ensures { agree 0 result.now table ≡ true }
{
    &TABLE
}

impl Register {
    // Every register, by ascending address.
    pub fn all() -> [Register; 24]
        ensures { result ≡ registers }
    {
        array::from_fn(|address| rows()[address].register)
    }

    // What the table says of it.
    fn row(self) -> Row
        ensures { Tells (address_of self) result (entry_at (address_of self)) }
    {
        rows()[usize::from(self.address())]
    }

    // Its name in the data sheet; a method beside Display, since a column pads a text.
    pub fn name(self) -> &'static str
        ensures { result.now ≡ name_of self }
    {
        self.row().name
    }

    // How many bytes it holds, one or five.
    pub fn size(self) -> usize
        ensures value { result ≡ size_of self }
        ensures sizes { (result ≡ 1) ⊎ (result ≡ 5) }
    {
        self.row().size
    }

    // Whether it is never written.
    pub fn is_read_only(self) -> bool
        ensures { result ≡ is_read_only self }
    {
        matches!(self.row().allowed, Allowed::ReadOnly)
    }

    // Whether `value` may be written to it: as many bytes as it holds, and a value that it takes.
    pub fn allows(self, value: &[u8]) -> bool
        ensures { result ≡ takes self value.now }
    {
        let row = self.row();
        match value {
            [low, ..] => value.len() == row.size && row.allowed.permits(*low),
            [] => false,
        }
    }

    // What it holds at reset: the same in each of its bytes.
    pub(crate) fn reset_value(self) -> Value
        ensures { result ≡ initial (entry_at (address_of self)) }
    {
        let Row { size, reset, .. } = self.row();
        let bytes = if size == 1 {
            [reset, 0, 0, 0, 0]
        } else {
            [reset; 5]
        };
        Value { bytes }
    }
}

// The register at an address; there is none from 18 hexadecimal up.
impl TryFrom<u8> for Register {
    type Error = NoSuchRegister;

    ghost try_from_gives = { StandsAt };

    fn try_from(address: u8) -> Result<Register, NoSuchRegister> {
        rows()
            .get(usize::from(address))
            .map(|row| row.register)
            .ok_or(NoSuchRegister)
    }
}

impl fmt::Display for Register {
    ghost output = { λ r. Some (name_of r) };

    fn fmt<W: fmt::Write>(&self, f: &mut fmt::Formatter<W>) -> fmt::Result {
        f.write_str(self.name())
    }
}

impl fmt::Display for NoSuchRegister {
    ghost output = { λ _. Some (codes "no register has the address") };

    fn fmt<W: fmt::Write>(&self, f: &mut fmt::Formatter<W>) -> fmt::Result {
        f.write_str("no register has the address")
    }
}

impl Error for NoSuchRegister {}
