// What a line does to a boxed unit.
ghost use Rattle.std.specs.Prelude.{◌≡◌, None, Some, cond, ◌==◌};
ghost use Rattle.commands.specs.Decode.{ordered};
ghost use Rattle.commands.specs.Refusals.{unless, kept_or};
ghost use Rattle.unit.specs.Commanding.{command_after};
ghost use Rattle.unit.specs.Ticking.{tick_refusal, tick_after};
ghost use Rattle.unit.specs.Hearing.{hear_after};
ghost use Rattle.desk.specs.Answers.{said_of};
ghost use Rattle.desk.specs.Boxed.{frame_sent, ticks, boxed_reply, boxed_ticks, boxed_hearing};

use crate::answer::{Frame, UnitAnswer, UnitResult};
use checks::Check;
use commands::Refusal;
use requests::Times;
use unit::Boxed;

// A host command, with so many bytes for the reply.
pub(crate) fn command<C: Check>(unit: &mut Boxed<C>, room: u8, bytes: &[u8]) -> UnitResult
    ensures after { unit.new.state ≡ command_after unit.old.state room (ordered bytes.now) }
    ensures answer { said_of result ≡ boxed_reply unit.old.state room bytes.now }
{
    let mut buffer = [0; 255];
    let length = unit.command(bytes, &mut buffer[..usize::from(room)])?;
    Ok(UnitAnswer::Reply { length, buffer })
}

// The frame that a call left in a buffer: no bits are none.
fn frame_in(bits: usize, buffer: [u8; 42]) -> Option<Frame>
    ensures { result ≡ cond (bits == 0) None (Some (record { bits = bits; buffer = buffer })) }
{
    if bits == 0 {
        None
    } else {
        Some(Frame { bits, buffer })
    }
}

// One tick, and the frame that it sends.
fn tick_once<C: Check>(unit: &mut Boxed<C>) -> Result<Option<Frame>, Refusal>
    ensures after { unit.new.state ≡ tick_after unit.old.state 42 }
    ensures answer { result ≡ unless (tick_refusal unit.old.state 42) (frame_sent C.Check.W C.meaning unit.old.state) }
{
    let mut buffer = [0; 42];
    let bits = unit.tick(&mut buffer)?;
    Ok(frame_in(bits, buffer))
}

// Ticks, up to so many; one that sends a frame is the last.
pub(crate) fn tick<C: Check>(unit: &mut Boxed<C>, times: Times) -> UnitResult
    ensures after { unit.new.state ≡ kept_or (tick_refusal unit.old.state 42) unit.old.state (ticks C.Check.W C.meaning times.count unit.old.state).state }
    ensures answer { said_of result ≡ boxed_ticks C.Check.W C.meaning times.count unit.old.state }
{
    for taken in 0..times.count {
        let sent = tick_once(unit)?;
        if sent.is_some() {
            return Ok(UnitAnswer::Ticks {
                taken: taken + 1,
                sent,
            });
        }
    }
    Ok(UnitAnswer::Ticks {
        taken: times.count,
        sent: None,
    })
}

// The first bits of these bytes, heard.
pub(crate) fn hear<C: Check>(unit: &mut Boxed<C>, bits: u16, bytes: &[u8]) -> UnitResult
    ensures after { unit.new.state ≡ hear_after C.Check.W C.meaning unit.old.state bytes.now bits 42 }
    ensures answer { said_of result ≡ boxed_hearing C.Check.W C.meaning unit.old.state bits bytes.now }
{
    let mut buffer = [0; 42];
    let length = unit.hear(bytes, usize::from(bits), &mut buffer)?;
    Ok(UnitAnswer::Heard {
        answer: frame_in(length, buffer),
    })
}
