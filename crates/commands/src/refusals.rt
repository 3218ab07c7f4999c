ghost use Rattle.std.specs.Prelude.{◌≡◌, ◌++◌, Some};
ghost use Rattle.commands.specs.declared.refusal.Refusal.TheVariants.{Unknown};
ghost use Rattle.commands.specs.Refusals.{numbered};
ghost use Rattle.commands.specs.Texts.{reason, register_name};

use crate::refusal::Refusal;
use registers::{NoSuchRegister, Register};
use std::error::Error;
use std::fmt;

impl Refusal {
    // The number that stands for the refusal; written out, since a variant with a field has none of its own.
    pub fn number(self) -> u8
        ensures { result ≡ (numbered self).0 }
    {
        match self {
            Refusal::NoCommand => 1,
            Refusal::Unknown => 2,
            Refusal::NotForUnit => 3,
            Refusal::DataLength => 4,
            Refusal::NothingReceived => 5,
            Refusal::ReplyRoom => 6,
            Refusal::ReadOnly => 7,
            Refusal::Busy => 8,
            Refusal::NotAllowed(_) => 9,
            Refusal::QueueFull => 10,
            Refusal::Profile => 11,
            Refusal::Fault(_) => 12,
            Refusal::FrameBytes => 18,
        }
    }

    // The register that the refusal names, if it names one.
    pub fn register(self) -> Option<Register>
        ensures { result ≡ (numbered self).1 }
    {
        match self {
            Refusal::NotAllowed(register) | Refusal::Fault(register) => Some(register),
            _ => None,
        }
    }
}

// A call that names a register which is not there.
impl From<NoSuchRegister> for Refusal {
    ghost from_gives = { λ _ refusal. refusal ≡ Unknown };

    fn from(_: NoSuchRegister) -> Refusal {
        Refusal::Unknown
    }
}

// Why the call is refused, with the name of the register that the refusal names.
impl fmt::Display for Refusal {
    ghost output = { λ e. Some (reason e ++ register_name (numbered e).1) };

    fn fmt<W: fmt::Write>(&self, f: &mut fmt::Formatter<W>) -> fmt::Result {
        match self {
            Refusal::NoCommand => f.write_str("no command byte"),
            Refusal::Unknown => f.write_str("no such command or register"),
            Refusal::NotForUnit => f.write_str("not for a bench unit, or not for its role"),
            Refusal::DataLength => f.write_str("a wrong number of data bytes"),
            Refusal::NothingReceived => f.write_str("the RX queue is empty"),
            Refusal::ReplyRoom => f.write_str("the reply buffer is too short"),
            Refusal::ReadOnly => f.write_str("read only, or fixed by boxing"),
            Refusal::Busy => f.write_str("not in Tuning, Waiting or RX"),
            Refusal::NotAllowed(register) => {
                write!(f, "the value is not allowed for {register}")
            }
            Refusal::QueueFull => f.write_str("the TX queue is full"),
            Refusal::Profile => f.write_str("the profile's map or length is wrong"),
            Refusal::Fault(register) => write!(f, "the check finds a fault in {register}"),
            Refusal::FrameBytes => f.write_str("bits beyond the frame's bytes"),
        }
    }
}

impl Error for Refusal {}
