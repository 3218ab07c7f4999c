ghost use Rattle.std.specs.Prelude.{◌≡◌, ◌<◌, Some, Decides, ◌==◌};
ghost use Rattle.registers.specs.Address.{address_of, register_at};

use crate::register::Register;

impl Register {
    // The address of the register, at which `try_from` finds it again. A method, since `u8::from` would not say which number.
    pub fn address(self) -> u8
        ensures value { result ≡ address_of self }
        ensures bound { result < 24 }
        ensures back { register_at result ≡ Some self }
    {
        self as u8
    }

    // Whether it is that register, which is where the addresses are equal. It says of `==`, which is derived, what it answers.
    pub fn is(self, other: Register) -> bool
        ensures value { result ≡ (address_of self == address_of other) }
        ensures same { Decides result (self ≡ other) }
    {
        self == other
    }
}
