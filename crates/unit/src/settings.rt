// What the registers of a boxed unit settle.
ghost use Rattle.std.specs.Prelude.{◌≡◌, ◌≤◌};
ghost use Rattle.registers.specs.declared.register.Register.TheVariants.{SetupAw};
ghost use Rattle.registers.specs.File.{byte_of};
ghost use Rattle.registers.specs.Readings.{width_of};
ghost use Rattle.frames.specs.Calls.{width_of as bytes_of_width, address_bytes};
ghost use Rattle.unit.specs.Units.{role_of, retry_of, tx_address};

use crate::state::State;
use frames::{Address, AddressWidth};
use modes::{Retry, Role};
use registers::Register;

impl State {
    pub(crate) fn role(&self) -> Role
        ensures { result ≡ role_of self.now.registers }
    {
        if self.registers.is_receiver() {
            Role::Receiver
        } else {
            Role::Sender
        }
    }

    pub(crate) fn retry(&self) -> Retry
        ensures { result ≡ retry_of self.now.registers }
    {
        Retry {
            delay: self.registers.retry_delay(),
            count: self.registers.retries(),
        }
    }

    pub(crate) fn address_width(&self) -> AddressWidth
        ensures { bytes_of_width result ≡ width_of (byte_of self.now.registers SetupAw) }
    {
        // a number of bytes there, since the registers stand below the frames; a register file says 3, 4 or 5
        AddressWidth::try_from(self.registers.address_width()).unwrap()
    }

    // The address to which a sender sends.
    pub fn tx_address(&self) -> Address
        ensures { address_bytes result ≡ tx_address self.now.registers }
    {
        Address::of_low_bytes(self.registers.wide(Register::TxAddr), self.address_width())
    }
}
