// The words of a line, read as what it asks for.
ghost use Rattle.std.specs.Prelude.{◌≡◌, IfOk};
ghost use Rattle.std.specs.Option.{option_map};
ghost use Rattle.words.specs.Split.{texts};
ghost use Rattle.frames.specs.Calls.{width_of, pid_number, address_bytes};
ghost use Rattle.requests.specs.Lines.{form_named, kind_named, address_of, pid_of, width_number, kind_line, pack_line, read_line, line_of, asked, Means, Gives};
ghost use Rattle.requests.specs.Grammar.{Settled};

use crate::calls::{ce_line, command_line, irq_line, tick_line};
use crate::cells::{carry_line, make_line};
use crate::limits::{bit_count, bit_of, number, second_of_two, unfit};
use crate::lines::{Cannot, Form, Kind, Line, Stop, UnitLine, Wanted};
use crate::units::{field_line, hear_line, load_line, plain_line};
use frames::{Address, AddressWidth, Fields, Payload, Pid};
use std::alloc::{AllocError, Global};
use words::{bytes, reversed, together};

fn form_of(word: &[u8]) -> Option<Form>
    ensures { result ≡ form_named word.now }
{
    match word {
        b"kind" => Some(Form::Kind),
        b"pack" => Some(Form::Pack),
        b"read" => Some(Form::Read),
        b"bench" => Some(Form::Bench),
        b"load" => Some(Form::Load),
        b"field" => Some(Form::Field),
        b"check" => Some(Form::Check),
        b"box" => Some(Form::Box),
        b"command" => Some(Form::Command),
        b"ce" => Some(Form::Ce),
        b"irq" => Some(Form::Irq),
        b"tick" => Some(Form::Tick),
        b"hear" => Some(Form::Hear),
        b"make" => Some(Form::Make),
        b"carry" => Some(Form::Carry),
        _ => None,
    }
}

fn kind_of(word: &[u8]) -> Result<Kind, Cannot>
    ensures { result ≡ kind_named word.now }
{
    match word {
        b"crc8" => Ok(Kind::Crc8),
        b"crc16" => Ok(Kind::Crc16),
        _ => Err(unfit(2, Wanted::Kind)),
    }
}

// No `and_then`: a closure could not hand on the error of the allocator.
fn address_of(heap: Global, word: &[u8]) -> Result<Option<Address>, AllocError>
    ensures { IfOk result (λ o. option_map address_bytes o ≡ address_of word.now) }
{
    let Some(high_first) = together(heap, word)? else {
        return Ok(None);
    };
    let low_first = reversed(heap, &high_first)?;
    Ok(Address::new(&low_first))
}

fn pid_of(word: &[u8]) -> Result<Pid, Cannot>
    ensures { Means pid_number result (pid_of word.now) }
{
    number(word, 3, Wanted::Pid, |n| {
        Pid::try_from(u8::try_from(n).ok()?).ok()
    })
}

fn width_of(word: &[u8]) -> Result<AddressWidth, Cannot>
    ensures { Means width_of result (width_number word.now) }
{
    number(word, 2, Wanted::Width, |n| {
        AddressWidth::try_from(usize::try_from(n).ok()?).ok()
    })
}

fn kind_line(words: &[&[u8]]) -> Result<Line, Stop>
    ensures { Gives asked result (kind_line (texts words.now)) }
{
    let kind = kind_of(second_of_two(words, Form::Kind)?)?;
    Ok(Line::Kind(kind))
}

fn pack_line(heap: Global, words: &[&[u8]]) -> Result<Line, Stop>
    ensures { Gives asked result (pack_line (texts words.now)) }
{
    let [_, address, pid, no_ack, ..] = words else {
        return Err(Cannot::TooFew(Form::Pack).into());
    };
    let address = address_of(heap, address)?.ok_or(unfit(2, Wanted::Address))?;
    let pid = pid_of(pid)?;
    let no_ack = bit_of(no_ack, 4, Wanted::NoAck)?;
    let given = bytes(heap, words, 4)?;
    let payload = Payload::new(&given).ok_or(Cannot::PayloadLength)?;
    Ok(Line::Pack(Fields {
        address,
        pid,
        no_ack,
        payload,
    }))
}

fn read_line(heap: Global, words: &[&[u8]]) -> Result<Line, Stop>
    ensures { Gives asked result (read_line (texts words.now)) }
{
    let [_, width, bits, ..] = words else {
        return Err(Cannot::TooFew(Form::Read).into());
    };
    let width = width_of(width)?;
    let bits = bit_count(bits)?;
    let bytes = bytes(heap, words, 3)?;
    Ok(Line::Read { width, bits, bytes })
}

// Apart from `parse`, so that the grammar follows from this one promise, and not once for each kind of line.
// The heap goes beside the words, as it goes into each call that allocates: one struct of both would be no plainer.
// One match over the forms: a table of functions would lose what each of them promises.
fn words_line(heap: Global, words: &[&[u8]]) -> Result<Line, Stop>
    ensures { Gives asked result (line_of (texts words.now)) }
{
    let form = words
        .first()
        .and_then(|word| form_of(word))
        .ok_or(unfit(1, Wanted::Form))?;
    match form {
        Form::Kind => kind_line(words),
        Form::Pack => pack_line(heap, words),
        Form::Read => read_line(heap, words),
        Form::Field => field_line(heap, words),
        Form::Bench => plain_line(words, form, UnitLine::Bench),
        Form::Check => plain_line(words, form, UnitLine::Check),
        Form::Box => plain_line(words, form, UnitLine::Box),
        Form::Load => load_line(heap, words),
        Form::Hear => hear_line(heap, words),
        Form::Command => command_line(heap, words),
        Form::Ce => ce_line(words),
        Form::Irq => irq_line(words),
        Form::Tick => tick_line(words),
        Form::Make => make_line(words),
        Form::Carry => carry_line(words),
    }
}

// What the words of a line ask for: one request, or one reason why there is none.
pub fn parse(heap: Global, words: &[&[u8]]) -> Result<Line, Stop>
    ensures value { Gives asked result (line_of (texts words.now)) }
    ensures settled { Settled (texts words.now) result }
{
    words_line(heap, words)
}
