// What a unit answers or lacks, in words.
ghost use Rattle.std.specs.Prelude.{◌≡◌, take, Some};
ghost use Rattle.desk.specs.Answers.{said_of};
ghost use Rattle.answers.specs.Texts.{refusal_text, layer_text, cell_refusal_text, frame_text, said_text, lack_text};

use cell::Layer;
use commands::Refusal;
use desk::{Frame, UnitAnswer, UnitResult};
use requests::Lack;
use std::fmt;
use words::Apart;

// The first bytes, all if there are fewer.
pub fn front(bytes: &[u8], n: usize) -> &[u8]
    ensures { result.now ≡ take n bytes.now }
{
    bytes.get(..n).unwrap_or(bytes)
}

// A refusal: its number, the register that it names, and the reason.
#[derive(Clone, Copy, Debug, PartialEq, Eq)]
pub struct Refused(pub Refusal);

impl fmt::Display for Refused {
    ghost output = { λ x. Some (refusal_text x.0) };

    fn fmt<W: fmt::Write>(&self, f: &mut fmt::Formatter<W>) -> fmt::Result {
        let Refused(refusal) = *self;
        let number = refusal.number();
        match refusal.register() {
            Some(register) => {
                let address = register.address();
                write!(f, "refused {number} {address:02X} ({refusal})")
            }
            None => write!(f, "refused {number} ({refusal})"),
        }
    }
}

fn layer_word(layer: Layer) -> &'static str
    ensures { result.now ≡ layer_text layer }
{
    match layer {
        Layer::Unit => "unit",
        Layer::Cell => "cell",
    }
}

// A refusal by a cell: the layer that refuses, the unit that it names, and the rest as of a unit's own.
#[derive(Clone, Copy, Debug, PartialEq, Eq)]
pub struct CellRefused(pub cell::Refusal);

impl fmt::Display for CellRefused {
    ghost output = { λ x. Some (cell_refusal_text x.0) };

    fn fmt<W: fmt::Write>(&self, f: &mut fmt::Formatter<W>) -> fmt::Result {
        let CellRefused(refusal) = *self;
        let layer = layer_word(refusal.layer());
        let unit = refusal.unit;
        let number = refusal.cause.number();
        match refusal.cause.register() {
            Some(register) => write!(
                f,
                "refused {layer} {unit} {number}{} ({refusal})",
                Apart(&[register.address()])
            ),
            None => write!(f, "refused {layer} {unit} {number} ({refusal})"),
        }
    }
}

// A frame: its bit count, and the bytes that its bits fill.
#[derive(Clone, Copy, Debug)]
pub struct Framed<'a>(pub &'a Frame);

impl fmt::Display for Framed<'_> {
    ghost output = { λ x. Some (frame_text x.0.now) };

    fn fmt<W: fmt::Write>(&self, f: &mut fmt::Formatter<W>) -> fmt::Result {
        let Frame { bits, buffer } = self.0;
        write!(f, "frame {bits}{}", Apart(front(buffer, bits.div_ceil(8))))
    }
}

// What a unit answered.
#[derive(Clone, Copy)]
pub struct Said<'a>(pub &'a UnitResult);

impl fmt::Display for Said<'_> {
    ghost output = { λ x. Some (said_text (said_of x.0.now)) };

    fn fmt<W: fmt::Write>(&self, f: &mut fmt::Formatter<W>) -> fmt::Result {
        match self.0 {
            Ok(UnitAnswer::Done) => f.write_str("ok"),
            Ok(UnitAnswer::Pin { is_low: true }) => f.write_str("ok low"),
            Ok(UnitAnswer::Pin { is_low: false }) => f.write_str("ok high"),
            Ok(UnitAnswer::Reply { length, buffer }) => write!(
                f,
                "ok{}",
                Apart(front(buffer, *length))
            ),
            Ok(UnitAnswer::Ticks { taken, sent: None }) => write!(f, "ok {taken}"),
            Ok(
                UnitAnswer::Ticks {
                    taken,
                    sent: Some(frame),
                },
            ) => write!(f, "ok {taken} {}", Framed(frame)),
            Ok(UnitAnswer::Heard { answer: None }) => f.write_str("ok"),
            Ok(
                UnitAnswer::Heard {
                    answer: Some(frame),
                },
            ) => write!(f, "ok {}", Framed(frame)),
            Ok(UnitAnswer::CellReply(reply)) => write!(f, "ok{}", Apart(reply.bytes())),
            Err(desk::Refusal::Unit(refusal)) => write!(f, "{}", Refused(*refusal)),
            Err(desk::Refusal::Cell(refusal)) => write!(f, "{}", CellRefused(*refusal)),
        }
    }
}

// What a unit lacks to do what a line asks.
#[derive(Clone, Copy, Debug, PartialEq, Eq)]
pub struct Lacking {
    // a number, as `requests::Cannot` has it
    pub unit: u8,
    pub lack: Lack,
}

impl fmt::Display for Lacking {
    ghost output = { λ x. Some (lack_text x.unit x.lack) };

    fn fmt<W: fmt::Write>(&self, f: &mut fmt::Formatter<W>) -> fmt::Result {
        let unit = self.unit;
        match self.lack {
            Lack::NoUnit => write!(
                f,
                "unit {unit} is not there; a line bench makes one, 0 to 7"
            ),
            Lack::IsBoxed => write!(
                f,
                "unit {unit} is boxed; the line is for a unit on the bench"
            ),
            Lack::OnBench => write!(
                f,
                "unit {unit} is on the bench; the line is for a boxed unit"
            ),
            Lack::InCell => write!(
                f,
                "unit {unit} is out of reach; a cell is made, and the line is for a unit outside of one"
            ),
            Lack::NotInCell => write!(f, "unit {unit} is no unit of the cell"),
        }
    }
}
