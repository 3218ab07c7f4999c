// The texts of results.
ghost use Rattle.std.specs.Prelude.{◌≡◌, Some};
ghost use Rattle.frames.specs.Calls.{packet_of};
ghost use Rattle.results.specs.Outcomes.{outcome_of};
ghost use Rattle.results.specs.Texts.{packet_text, result_text, usage_text, wanted_text, cannot_text};

use crate::carrying::Answer;
use answers::{Framed, Lacking, Refused, Said};
use frames::Fields;
use requests::{Cannot, Form, Wanted};
use std::fmt;
use words::{Apart, Reversed};

// A packet: its address high byte first, packet identity, no-acknowledgement, payload.
#[derive(Clone, Copy)]
struct Packet<'a>(&'a Fields);

impl fmt::Display for Packet<'_> {
    ghost output = { λ x. Some (packet_text (packet_of x.0.now)) };

    fn fmt<W: fmt::Write>(&self, f: &mut fmt::Formatter<W>) -> fmt::Result {
        let Packet(fields) = *self;
        let pid = fields.pid.number();
        let no_ack = u8::from(fields.no_ack);
        write!(
            f,
            "ok {} {pid} {no_ack}{}",
            Reversed(fields.address.bytes()),
            Apart(fields.payload.bytes())
        )
    }
}

impl fmt::Display for Answer {
    ghost output = { λ a. Some (result_text (outcome_of a)) };

    fn fmt<W: fmt::Write>(&self, f: &mut fmt::Formatter<W>) -> fmt::Result {
        match self {
            Answer::Done => f.write_str("ok"),
            Answer::Frame(frame) => write!(f, "ok {}", Framed(frame)),
            Answer::Read(Ok(Some(heard))) => write!(f, "{}", Packet(&heard.fields)),
            Answer::Read(Ok(None)) => f.write_str("ok nothing"),
            Answer::Read(Err(refusal)) => write!(f, "refused {} ({refusal})", refusal.number()),
            Answer::Field(Ok(Some(field))) => write!(f, "ok{}", Apart(field.bytes())),
            Answer::Field(Ok(None)) => f.write_str("ok absent"),
            Answer::Field(Err(refusal)) => write!(f, "{}", Refused(*refusal)),
            Answer::Unit(result) => write!(f, "{}", Said(result)),
        }
    }
}

// How a line of that form is written. A function to a fixed text, as is the next: `Form` and `Wanted` are another crate's types, and
// a struct around each for a Display would be longer and say no more.
fn usage(form: Form) -> &'static str
    ensures { result.now ≡ usage_text form }
{
    match form {
        Form::Kind => "kind K",
        Form::Pack => "pack ADDRESS PID NOACK BYTES",
        Form::Read => "read WIDTH BITS BYTES",
        Form::Bench => "bench U",
        Form::Load => "load U BYTES",
        Form::Field => "field RR BYTES",
        Form::Check => "check U",
        Form::Box => "box U",
        Form::Command => "command U BYTES or command U /R BYTES",
        Form::Ce => "ce U 0 or ce U 1",
        Form::Irq => "irq U",
        Form::Tick => "tick U or tick U N",
        Form::Hear => "hear U BITS BYTES",
        Form::Make => "make",
        Form::Carry => "carry F or carry F START PATTERN",
    }
}

// What a word is to be, in words.
fn wish(wanted: Wanted) -> &'static str
    ensures { result.now ≡ wanted_text wanted }
{
    match wanted {
        Wanted::Form =>
            "a line begins with kind, pack, read, bench, load, field, check, box, command, ce, irq, tick, hear, make or carry",
        Wanted::Kind => "a kind is crc8 or crc16",
        Wanted::Address => "an address is 3 to 5 bytes, 6, 8 or 10 hexadecimal digits together",
        Wanted::Pid => "a PID is 0 to 3",
        Wanted::NoAck => "NOACK is 0 or 1",
        Wanted::Width => "an address is 3 to 5 bytes wide",
        Wanted::BitCount => "a bit count is 0 to 65535",
        Wanted::Byte => "a byte is two hexadecimal digits",
        Wanted::Label => "a unit is 0 to 7",
        Wanted::Unit => "the number of a unit is 0 to 255",
        Wanted::Register => "a register is two hexadecimal digits",
        Wanted::Room => "a reply buffer is /0 to /255",
        Wanted::Level => "a level is 0 or 1",
        Wanted::Times => "a count of ticks is 1 to 65535",
        Wanted::Fate => "a fate is 0 to 255",
        Wanted::Start => "a start bit is 0 to 65535",
        Wanted::Pattern => "a pattern is four hexadecimal digits",
    }
}

// The result of a line that cannot be carried out, with the reason.
#[derive(Clone, Copy, Debug, PartialEq, Eq)]
pub struct Unable(pub Cannot);

impl fmt::Display for Unable {
    ghost output = { λ x. Some (cannot_text x.0) };

    fn fmt<W: fmt::Write>(&self, f: &mut fmt::Formatter<W>) -> fmt::Result {
        match self.0 {
            Cannot::Word { word, wanted } => write!(f, "cannot (word {word}: {})", wish(wanted)),
            Cannot::TooFew(form) => write!(f, "cannot (too few words: {})", usage(form)),
            Cannot::TooMany(form) => write!(f, "cannot (too many words: {})", usage(form)),
            Cannot::PayloadLength => f.write_str("cannot (over 32 payload bytes)"),
            Cannot::Unit { unit, lack } => write!(f, "cannot ({})", Lacking { unit, lack }),
            Cannot::CellIsMade => {
                f.write_str("cannot (there is a cell already; a line kind ends it)")
            }
            Cannot::NoCell => f.write_str("cannot (there is no cell; a line make makes it)"),
        }
    }
}
