// The lines for the unit of a number.
ghost use Rattle.std.specs.Prelude.{◌≡◌};
ghost use Rattle.words.specs.Split.{texts};
ghost use Rattle.requests.specs.Lines.{call, tick, count_of, unit_of, room_of, times_of, word_at, command_line, ce_line, irq_line, tick_line, asked, Means, Gives};

use crate::limits::{bit_of, number, second_of_two};
use crate::lines::{Cannot, Form, Line, Stop, UnitCall, Wanted};
use crate::times::Times;
use std::alloc::Global;
use words::bytes;

// The reply buffer of a host command where the line says nothing of it: room for STATUS and 32 bytes.
const USUAL_ROOM: u8 = 33;

// A line names any unit that a call on a cell can name, also one that is not there.
fn unit_of(word: &[u8]) -> Result<u8, Cannot>
    ensures { result ≡ unit_of word.now }
{
    number(word, 2, Wanted::Unit, |n| u8::try_from(n).ok())
}

// The room for the reply, where the word behind the unit says it: /R.
fn room_of(words: &[&[u8]]) -> Result<Option<u8>, Cannot>
    ensures { result ≡ room_of (word_at (texts words.now) 2) }
{
    match words {
        [_, _, [b'/', digits @ ..], ..] => {
            number(digits, 3, Wanted::Room, |n| u8::try_from(n).ok()).map(Some)
        }
        _ => Ok(None),
    }
}

fn times_of(word: &[u8]) -> Result<Times, Cannot>
    ensures { Means count_of result (times_of word.now) }
{
    number(word, 3, Wanted::Times, |n| Times::try_from(n).ok())
}

pub(crate) fn command_line(heap: Global, words: &[&[u8]]) -> Result<Line, Stop>
    ensures { Gives asked result (command_line (texts words.now)) }
{
    let [_, unit, ..] = words else {
        return Err(Cannot::TooFew(Form::Command).into());
    };
    let unit = unit_of(unit)?;
    let (room, from) = room_of(words)?.map_or((USUAL_ROOM, 2), |room| (room, 3));
    let bytes = bytes(heap, words, from)?;
    Ok(Line::Call {
        unit,
        call: UnitCall::Command { room, bytes },
    })
}

pub(crate) fn ce_line(words: &[&[u8]]) -> Result<Line, Stop>
    ensures { Gives asked result (ce_line (texts words.now)) }
{
    match words {
        [] | [_] | [_, _] => Err(Cannot::TooFew(Form::Ce).into()),
        [_, unit, level] => {
            let unit = unit_of(unit)?;
            let high = bit_of(level, 3, Wanted::Level)?;
            Ok(Line::Call {
                unit,
                call: UnitCall::Ce { high },
            })
        }
        _ => Err(Cannot::TooMany(Form::Ce).into()),
    }
}

pub(crate) fn irq_line(words: &[&[u8]]) -> Result<Line, Stop>
    ensures { Gives asked result (irq_line (texts words.now)) }
{
    let unit = unit_of(second_of_two(words, Form::Irq)?)?;
    Ok(Line::Call {
        unit,
        call: UnitCall::Irq,
    })
}

fn ticks(unit: u8, times: Times) -> Line
    ensures { asked result ≡ call unit (tick times.count) }
{
    Line::Call {
        unit,
        call: UnitCall::Tick { times },
    }
}

// One tick where the line says nothing of their number.
pub(crate) fn tick_line(words: &[&[u8]]) -> Result<Line, Stop>
    ensures { Gives asked result (tick_line (texts words.now)) }
{
    match words {
        [] | [_] => Err(Cannot::TooFew(Form::Tick).into()),
        [_, unit] => Ok(ticks(unit_of(unit)?, Times::ONE)),
        [_, unit, times] => Ok(ticks(unit_of(unit)?, times_of(times)?)),
        _ => Err(Cannot::TooMany(Form::Tick).into()),
    }
}
