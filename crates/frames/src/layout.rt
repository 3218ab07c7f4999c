ghost use Rattle.std.specs.Prelude.{◌≡◌, ℕ, ◌+◌, ◌-◌, ◌*◌, ◌≤◌, length, take, drop};
ghost use Rattle.checks.specs.Bits.{bits};
ghost use Rattle.frames.specs.Calls.{width_of};

use crate::fields::{AddressWidth, Fields};
use checks::{Check, number_of};

// Where the parts of a frame begin.
#[derive(Clone, Copy)]
pub(crate) struct Layout {
    pub(crate) wide: AddressWidth,
    // how many bytes the payload has
    pub(crate) len: usize,
    ghost fits: { len ≤ 32 },
}

impl AddressWidth {
    // The control bits come after preamble and address.
    pub(crate) fn control(self) -> usize
        ensures value { result ≡ 8 + 8 * width_of self }
        ensures small { result ≤ 48 }
    {
        8 + 8 * self.bytes()
    }
}

impl Layout {
    pub(crate) fn of(fields: &Fields) -> Layout
        ensures wide { result.wide ≡ fields.now.address.wide }
        ensures len { result.len ≡ fields.now.payload.len }
    {
        Layout {
            wide: fields.address.wide,
            len: fields.payload.len as usize,
        }
    }

    // The payload comes after the nine control bits.
    pub(crate) fn payload(self) -> usize
        ensures value { result ≡ 8 + 8 * width_of self.wide + 9 }
        ensures small { result ≤ 57 }
    {
        self.wide.control() + 9
    }

    // The check comes after the payload.
    pub(crate) fn check(self) -> usize
        ensures value { result ≡ 8 + 8 * width_of self.wide + 9 + 8 * self.len }
        ensures small { result ≤ 313 }
    {
        self.payload() + 8 * self.len
    }
}

// The check of what a frame has between its preamble and a place.
pub(crate) fn check_before<C: Check>(frame: &[u8], end: usize) -> u16
    requires { (8 ≤ end) × (1 ≤ length frame.now) }
    ensures { result ≡ C.meaning (take (end - 8) (drop 8 (bits frame.now))) }
{
    number_of::<C>(&frame[1..], end - 8)
}
