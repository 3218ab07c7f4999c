ghost use Rattle.std.specs.Prelude.{◌≡◌, ◌<◌, Some, codes};
ghost use Rattle.registers.specs.Pipes.{index_of, pipes, pipe_at, HasNumber, address_register, width_register};

use crate::pipe::{NoSuchPipe, Pipe};
use crate::register::Register;
use std::error::Error;
use std::fmt;

impl Pipe {
    // Every pipe, by ascending number.
    pub fn all() -> [Pipe; 6]
        ensures { result ≡ pipes }
    {
        [Pipe::P0, Pipe::P1, Pipe::P2, Pipe::P3, Pipe::P4, Pipe::P5]
    }

    // The number of the pipe, at which `try_from` finds it again. A method, since `u8::from` would not say which number.
    pub fn index(self) -> u8
        ensures value { result ≡ index_of self }
        ensures bound { result < 6 }
        ensures back { pipe_at result ≡ Some self }
    {
        self as u8
    }

    // The register of its own address, or of the low byte of it. Written out, as is the next table: a register found by
    // counting on from RX_ADDR_P0 would be no shorter, and not seen to be there.
    pub fn address_register(self) -> Register
        ensures { result ≡ address_register self }
    {
        match self {
            Pipe::P0 => Register::RxAddrP0,
            Pipe::P1 => Register::RxAddrP1,
            Pipe::P2 => Register::RxAddrP2,
            Pipe::P3 => Register::RxAddrP3,
            Pipe::P4 => Register::RxAddrP4,
            Pipe::P5 => Register::RxAddrP5,
        }
    }

    // The register of the length of its payloads.
    pub fn width_register(self) -> Register
        ensures { result ≡ width_register self }
    {
        match self {
            Pipe::P0 => Register::RxPwP0,
            Pipe::P1 => Register::RxPwP1,
            Pipe::P2 => Register::RxPwP2,
            Pipe::P3 => Register::RxPwP3,
            Pipe::P4 => Register::RxPwP4,
            Pipe::P5 => Register::RxPwP5,
        }
    }
}

// The pipe of a number; there is none from 6 up.
impl TryFrom<u8> for Pipe {
    type Error = NoSuchPipe;

    ghost try_from_gives = { HasNumber };

    fn try_from(number: u8) -> Result<Pipe, NoSuchPipe> {
        Pipe::all()
            .get(usize::from(number))
            .copied()
            .ok_or(NoSuchPipe)
    }
}

impl fmt::Display for NoSuchPipe {
    ghost output = { λ _. Some (codes "no pipe has the number") };

    fn fmt<W: fmt::Write>(&self, f: &mut fmt::Formatter<W>) -> fmt::Result {
        f.write_str("no pipe has the number")
    }
}

impl Error for NoSuchPipe {}
