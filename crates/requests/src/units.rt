// The lines for units under their labels, and for profiles.
ghost use Rattle.std.specs.Prelude.{◌≡◌};
ghost use Rattle.words.specs.Split.{texts};
ghost use Rattle.requests.specs.Lines.{place_of, label_of, register_of, plain_line, field_line, load_line, hear_line, asked, asked_of, Means, Gives};

use crate::label::Label;
use crate::limits::{bit_count, number, second_of_two, unfit};
use crate::lines::{Cannot, Form, Line, Stop, UnitLine, Wanted};
use std::alloc::Global;
use words::{byte, bytes};

fn label_of(word: &[u8]) -> Result<Label, Cannot>
    ensures { Means place_of result (label_of word.now) }
{
    number(word, 2, Wanted::Label, |n| Label::try_from(n).ok())
}

fn register_of(word: &[u8]) -> Result<u8, Cannot>
    ensures { result ≡ register_of word.now }
{
    byte(word).ok_or(unfit(2, Wanted::Register))
}

// A line of two words, the second of which is a label.
pub(crate) fn plain_line(words: &[&[u8]], form: Form, line: UnitLine) -> Result<Line, Stop>
    ensures { Gives asked result (plain_line form (asked_of line) (texts words.now)) }
{
    let label = label_of(second_of_two(words, form)?)?;
    Ok(Line::Unit { label, line })
}

pub(crate) fn field_line(heap: Global, words: &[&[u8]]) -> Result<Line, Stop>
    ensures { Gives asked result (field_line (texts words.now)) }
{
    let [_, register, ..] = words else {
        return Err(Cannot::TooFew(Form::Field).into());
    };
    let register = register_of(register)?;
    let profile = bytes(heap, words, 2)?;
    Ok(Line::Field { register, profile })
}

pub(crate) fn load_line(heap: Global, words: &[&[u8]]) -> Result<Line, Stop>
    ensures { Gives asked result (load_line (texts words.now)) }
{
    let [_, label, ..] = words else {
        return Err(Cannot::TooFew(Form::Load).into());
    };
    let label = label_of(label)?;
    let profile = bytes(heap, words, 2)?;
    Ok(Line::Unit {
        label,
        line: UnitLine::Load { profile },
    })
}

pub(crate) fn hear_line(heap: Global, words: &[&[u8]]) -> Result<Line, Stop>
    ensures { Gives asked result (hear_line (texts words.now)) }
{
    let [_, label, bits, ..] = words else {
        return Err(Cannot::TooFew(Form::Hear).into());
    };
    let label = label_of(label)?;
    let bits = bit_count(bits)?;
    let bytes = bytes(heap, words, 3)?;
    Ok(Line::Unit {
        label,
        line: UnitLine::Hear { bits, bytes },
    })
}
