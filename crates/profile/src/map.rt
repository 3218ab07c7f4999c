// The map of a profile: bit n stands for the register at address n.
ghost use Rattle.std.specs.Prelude.{◌≡◌, ◌≤◌};
ghost use Rattle.registers.specs.Address.{address_of};
ghost use Rattle.profile.specs.Profile.{names, names_only, named_below, place};

use registers::Register;

// Two masks beside the table of registers, proved to say what it says: so a place is two counts of ones, and what a map may name
// one comparison, with no way through the table.

// The registers of five bytes.
const WIDE: u32 = 0x0001_0C00;

// The registers that a profile may name.
const ALLOWED: u32 = 0x007F_FC7F;

#[derive(Clone, Copy)]
pub(crate) struct Map(pub(crate) u32);

impl Map {
    // Whether it names the register. `stands` of registers tests a bit of a byte only.
    pub(crate) fn names(self, register: Register) -> bool
        ensures { result ≡ names self.0 (address_of register) }
    {
        self.0 >> register.address() & 1 == 1
    }

    // Whether it names only registers that a profile may name.
    pub(crate) fn is_allowed(self) -> bool
        ensures { result ≡ names_only self.0 32 }
    {
        self.0 & ALLOWED == self.0
    }

    // How many registers it names below an address; 24 is past them all.
    pub(crate) fn count_below(self, address: u8) -> u32
        requires { address ≤ 24 }
        ensures value { result ≡ named_below self.0 address }
        ensures few { result ≤ 24 }
    {
        let low = (1u32 << address) - 1;
        (self.0 & low).count_ones()
    }

    // Where the field of the register at an address begins: after the map, and a byte for each named register below,
    // and four more for each of them that is wide.
    pub(crate) fn place(self, address: u8) -> usize
        requires { address ≤ 24 }
        ensures value { result ≡ place self.0 address }
        ensures near { result ≤ 124 }
    {
        4 + self.count_below(address) as usize
            + 4 * Map(self.0 & WIDE).count_below(address) as usize
    }
}
