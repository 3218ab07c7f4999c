// What a line can ask for, and why it cannot be carried out.
ghost use Rattle.std.specs.Prelude.{◌≡◌};
ghost use Rattle.requests.specs.declared.lines.Stop.TheVariants.{Cannot as Unable, Memory};
ghost use Rattle.requests.specs.Stops.{of_unread};

use crate::label::Label;
use crate::times::Times;
use frames::{AddressWidth, Fields};
use std::alloc::AllocError;
use words::Unread;

// A kind of check: 8 bits or 16.
#[derive(Clone, Copy, Debug, PartialEq, Eq)]
pub enum Kind {
    Crc8,
    Crc16,
}

#[derive(Drop)]
pub enum Line {
    Kind(Kind),
    Pack(Fields),
    Read {
        width: AddressWidth,
        bits: u16,
        bytes: Vec<u8>,
    },
    // looks a register up in a profile; any byte, since a lookup refuses none that no register has
    Field {
        register: u8,
        profile: Vec<u8>,
    },
    // is for the unit under a label
    Unit {
        label: Label,
        line: UnitLine,
    },
    // is for the unit of a number: that of the cell, or else the one under the label
    Call {
        unit: u8,
        call: UnitCall,
    },
    // makes a cell of the boxed units
    Make,
    // the frame on the air has a fate
    Carry {
        fate: u8,
        start: u16,
        pattern: u16,
    },
}

// What a line asks of the unit under a label.
#[derive(Drop)]
pub enum UnitLine {
    // a new bench unit in its place
    Bench,
    Load { profile: Vec<u8> },
    Check,
    Box,
    // hears the first bits of these bytes
    Hear { bits: u16, bytes: Vec<u8> },
}

// What a line asks of the unit of a number.
#[derive(Drop)]
pub enum UnitCall {
    // a host command, with a reply buffer of so many bytes
    Command { room: u8, bytes: Vec<u8> },
    // the level of its CE pin
    Ce { high: bool },
    Irq,
    // ticks, up to so many
    Tick { times: Times },
}

// The lines by their first word.
#[derive(Clone, Copy, Debug, PartialEq, Eq)]
pub enum Form {
    Kind,
    Pack,
    Read,
    Bench,
    Load,
    Field,
    Check,
    Box,
    Command,
    Ce,
    Irq,
    Tick,
    Hear,
    Make,
    Carry,
}

// What a word is to be.
#[derive(Clone, Copy, Debug, PartialEq, Eq)]
pub enum Wanted {
    Form,
    Kind,
    Address,
    Pid,
    NoAck,
    Width,
    BitCount,
    Byte,
    Label,
    Unit,
    Register,
    Room,
    Level,
    Times,
    Fate,
    Start,
    Pattern,
}

// Why a unit cannot do what a line asks of it.
#[derive(Clone, Copy, Debug, PartialEq, Eq)]
pub enum Lack {
    // there is none
    NoUnit,
    // it is boxed, and the line is for a bench unit
    IsBoxed,
    // it is on the bench, and the line is for a boxed unit
    OnBench,
    // there is a cell, and the line is for a unit outside of one
    InCell,
    // there is a cell, and it has no such unit
    NotInCell,
}

// Why a line cannot be carried out. A word is counted from 1; a unit is named by its number, of a label its place.
#[derive(Clone, Copy, Debug, PartialEq, Eq)]
pub enum Cannot {
    Word { word: usize, wanted: Wanted },
    TooFew(Form),
    TooMany(Form),
    PayloadLength,
    Unit { unit: u8, lack: Lack },
    // there is a cell already
    CellIsMade,
    NoCell,
}

// Why a line goes no further: it cannot be carried out, or there is no memory, which ends the run.
// Plain data, which clauses compare: the error of the allocator is not kept, since it says no more than Memory does.
#[derive(Clone, Copy, Debug, PartialEq, Eq)]
pub enum Stop {
    Cannot(Cannot),
    Memory,
}

impl From<Cannot> for Stop {
    ghost from_gives = { λ e r. r ≡ Unable e };

    fn from(e: Cannot) -> Stop {
        Stop::Cannot(e)
    }
}

impl From<AllocError> for Stop {
    ghost from_gives = { λ _ r. r ≡ Memory };

    fn from(_e: AllocError) -> Stop {
        Stop::Memory
    }
}

impl From<Unread> for Stop {
    ghost from_gives = { λ e r. r ≡ of_unread e };

    fn from(e: Unread) -> Stop {
        match e {
            Unread::NoByte { word } => Stop::Cannot(Cannot::Word {
                word,
                wanted: Wanted::Byte,
            }),
            Unread::Memory => Stop::Memory,
        }
    }
}
