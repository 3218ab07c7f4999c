ghost use Rattle.std.specs.Prelude.{◌≡◌, ◌/◌, ◌%◌, ◌<◌, ◌≤◌};
ghost use Rattle.registers.specs.declared.register.Register.TheVariants.{Config, EnAa, EnRxaddr, SetupAw, SetupRetr, RfSetup};
ghost use Rattle.registers.specs.Bits.{bit};
ghost use Rattle.registers.specs.File.{byte_of};
ghost use Rattle.registers.specs.Pipes.{index_of, width_register};
ghost use Rattle.registers.specs.Readings.{width_of, rate_of, pipe_address};

use crate::bits::stands;
use crate::held::Registers;
use crate::pipe::{Pipe, Rate};
use crate::register::Register;

// Single bits of a register, and those of CONFIG: 3 EN_CRC, 2 CRCO, 1 PWR_UP, 0 PRIM_RX; its bits 6, 5, 4 mask the interrupts.
impl Registers {
    // Whether the bit at `place` stands in the register's lowest byte.
    fn bit(&self, register: Register, place: u8) -> bool
        ensures { result ≡ bit place (byte_of self.now register) }
    {
        stands(self.byte(register), place)
    }

    // PRIM_RX: a receiver, else a sender.
    pub fn is_receiver(&self) -> bool
        ensures { result ≡ bit 0 (byte_of self.now Config) }
    {
        self.bit(Register::Config, 0)
    }

    // PWR_UP.
    pub fn is_powered(&self) -> bool
        ensures { result ≡ bit 1 (byte_of self.now Config) }
    {
        self.bit(Register::Config, 1)
    }

    // CRCO: a check of 16 bits, else of 8.
    pub fn crc_is_wide(&self) -> bool
        ensures { result ≡ bit 2 (byte_of self.now Config) }
    {
        self.bit(Register::Config, 2)
    }

    // EN_CRC.
    pub fn crc_enabled(&self) -> bool
        ensures { result ≡ bit 3 (byte_of self.now Config) }
    {
        self.bit(Register::Config, 3)
    }
}

impl Registers {
    // How many low bytes of an address are in use: SETUP_AW and two more. A value that may not be written reads as the widest.
    // A number, since registers stand below frames, whose type of address widths is not known here.
    pub fn address_width(&self) -> usize
        ensures value { result ≡ width_of (byte_of self.now SetupAw) }
        ensures bounds { (3 ≤ result) × (result ≤ 5) }
    {
        match self.byte(Register::SetupAw) {
            1 => 3,
            2 => 4,
            _ => 5,
        }
    }

    // ARC: how many times a frame is sent again.
    pub fn retries(&self) -> u8
        ensures value { result ≡ byte_of self.now SetupRetr % 16 }
        ensures bound { result < 16 }
    {
        self.byte(Register::SetupRetr) % 16
    }

    // ARD: the wait between two sendings, in steps of 250 µs less one.
    pub fn retry_delay(&self) -> u8
        ensures value { result ≡ byte_of self.now SetupRetr / 16 }
        ensures bound { result < 16 }
    {
        self.byte(Register::SetupRetr) / 16
    }

    // The rate by bits 5 and 3 of RF_SETUP.
    pub fn rate(&self) -> Rate
        ensures { result ≡ rate_of (byte_of self.now RfSetup) }
    {
        if self.bit(Register::RfSetup, 5) {
            Rate::Kbps250
        } else if self.bit(Register::RfSetup, 3) {
            Rate::Mbps2
        } else {
            Rate::Mbps1
        }
    }
}

impl Registers {
    // EN_RXADDR: whether the pipe is enabled.
    pub fn is_enabled(&self, pipe: Pipe) -> bool
        ensures { result ≡ bit (index_of pipe) (byte_of self.now EnRxaddr) }
    {
        self.bit(Register::EnRxaddr, pipe.index())
    }

    // EN_AA: whether the pipe answers with an acknowledgement.
    pub fn is_acknowledged(&self, pipe: Pipe) -> bool
        ensures { result ≡ bit (index_of pipe) (byte_of self.now EnAa) }
    {
        self.bit(Register::EnAa, pipe.index())
    }

    // RX_PW: the length of the payloads that the pipe takes.
    pub fn payload_width(&self, pipe: Pipe) -> u8
        ensures { result ≡ byte_of self.now (width_register pipe) }
    {
        self.byte(pipe.width_register())
    }

    // The address of the pipe, the lowest byte first: pipes 2 to 5 have their own low byte under the upper bytes of pipe 1.
    pub fn pipe_address(&self, pipe: Pipe) -> [u8; 5]
        ensures { result ≡ pipe_address self.now pipe }
    {
        match pipe {
            Pipe::P0 | Pipe::P1 => self.wide(pipe.address_register()),
            _ => {
                let mut address = self.wide(Register::RxAddrP1);
                address[0] = self.byte(pipe.address_register());
                address
            }
        }
    }
}
