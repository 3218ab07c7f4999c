ghost use Rattle.std.specs.Prelude.{◌≡◌};
ghost use Rattle.desk.specs.declared.answer.Refusal.TheVariants.{Unit as of_unit};

use delivery::Reply;

// A frame that a unit sends: so many bits, at the front of a buffer. Its bytes would not tell how many bits it has, so a Vec or an
// ArrayVec would stand beside the bit count too; and a Vec would make the call fail for want of memory.
#[derive(Clone, Copy, Debug)]
pub struct Frame {
    pub bits: usize,
    pub buffer: [u8; 42],
}

// What a unit answers.
// `Reply` is a length beside a buffer. It is no Vec: a call on a unit cannot fail, and a Vec would make it fail for want of memory.
// It is no ArrayVec, which is not Copy, as an answer is.
#[derive(Clone, Copy, Debug)]
pub enum UnitAnswer {
    Done,
    // the level of its IRQ pin
    Pin { is_low: bool },
    // a reply of so many bytes, at the front of a buffer
    Reply { length: usize, buffer: [u8; 255] },
    // how many ticks were taken, and what the last of them sent
    Ticks { taken: u16, sent: Option<Frame> },
    // what is sent back to a frame that was heard, or is on the air after a carry
    Heard { answer: Option<Frame> },
    // a reply by a unit of the cell
    CellReply(Reply),
}

// Who refuses: a unit outside of a cell, or the cell.
#[derive(Clone, Copy, Debug, PartialEq, Eq)]
pub enum Refusal {
    Unit(commands::Refusal),
    Cell(cell::Refusal),
}

impl From<commands::Refusal> for Refusal {
    ghost from_gives = { λ e r. r ≡ of_unit e };

    fn from(e: commands::Refusal) -> Refusal {
        Refusal::Unit(e)
    }
}

// What a call gives: an answer, or a refusal. It stands inside the Result of a call, apart from `Lack`: a refusal is what the engine
// gives and counts as carried out, a lack is not.
pub type UnitResult = Result<UnitAnswer, Refusal>;
