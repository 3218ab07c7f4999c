// The lines for the cell.
ghost use Rattle.std.specs.Prelude.{◌≡◌};
ghost use Rattle.words.specs.Split.{texts};
ghost use Rattle.requests.specs.Lines.{fate_of, start_of, four_digits, pattern_of, make_line, carry_line, asked, Gives};

use crate::limits::{number, unfit};
use crate::lines::{Cannot, Form, Line, Stop, Wanted};
use words::byte;

fn fate_of(word: &[u8]) -> Result<u8, Cannot>
    ensures { result ≡ fate_of word.now }
{
    number(word, 2, Wanted::Fate, |n| u8::try_from(n).ok())
}

fn start_of(word: &[u8]) -> Result<u16, Cannot>
    ensures { result ≡ start_of word.now }
{
    number(word, 3, Wanted::Start, |n| u16::try_from(n).ok())
}

fn four_digits(word: &[u8]) -> Option<u16>
    ensures { result ≡ four_digits word.now }
{
    let [a, b, c, d] = word else {
        return None;
    };
    let high = byte(&[*a, *b])?;
    let low = byte(&[*c, *d])?;
    Some(256 * u16::from(high) + u16::from(low))
}

fn pattern_of(word: &[u8]) -> Result<u16, Cannot>
    ensures { result ≡ pattern_of word.now }
{
    four_digits(word).ok_or(unfit(4, Wanted::Pattern))
}

pub(crate) fn make_line(words: &[&[u8]]) -> Result<Line, Stop>
    ensures { Gives asked result (make_line (texts words.now)) }
{
    match words {
        [] | [_] => Ok(Line::Make),
        _ => Err(Cannot::TooMany(Form::Make).into()),
    }
}

// Start bit and pattern are 0 where the line says nothing of them.
pub(crate) fn carry_line(words: &[&[u8]]) -> Result<Line, Stop>
    ensures { Gives asked result (carry_line (texts words.now)) }
{
    match words {
        [] | [_] | [_, _, _] => Err(Cannot::TooFew(Form::Carry).into()),
        [_, fate] => Ok(Line::Carry {
            fate: fate_of(fate)?,
            start: 0,
            pattern: 0,
        }),
        [_, fate, start, pattern] => Ok(Line::Carry {
            fate: fate_of(fate)?,
            start: start_of(start)?,
            pattern: pattern_of(pattern)?,
        }),
        _ => Err(Cannot::TooMany(Form::Carry).into()),
    }
}
