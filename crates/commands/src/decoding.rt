ghost use Rattle.std.specs.Prelude.{◌≡◌};
ghost use Rattle.commands.specs.Decode.{order_of, ordered, told, order, fits};

use crate::command::Command;
use crate::refusal::Refusal;
use registers::Register;

// The command that the byte stands for, with its data. One match: a table of functions would lose what each of them promises.
fn command(first: u8, data: &[u8]) -> Result<Command<'_>, Refusal>
    ensures { told result ≡ order_of first «data».now }
{
    match first {
        0x00..=0x1F => Ok(Command::ReadRegister(Register::try_from(first)?, data)),
        0x20..=0x3F => Ok(Command::WriteRegister(Register::try_from(first - 0x20)?, data)),
        0x61 => Ok(Command::ReadPayload(data)),
        0xA0 => Ok(Command::WritePayload(data)),
        0xE1 => Ok(Command::FlushTx(data)),
        0xE2 => Ok(Command::FlushRx(data)),
        0xFF => Ok(Command::Nop(data)),
        _ => Err(Refusal::Unknown),
    }
}

// The command that the first of the host's bytes stands for, with the others as its data: they are those very bytes.
#[tactic(auto, unfolding(crate::specs::Decode::ordered))]
pub fn decode(bytes: &[u8]) -> Result<Command<'_>, Refusal>
    ensures { told result ≡ ordered bytes.now }
{
    match bytes {
        [] => Err(Refusal::NoCommand),
        [first, data @ ..] => command(*first, data),
    }
}

impl Command<'_> {
    // Whether the command has as many data bytes as it takes.
    pub fn data_fits(&self) -> bool
        ensures { result ≡ fits (order self.now) }
    {
        match self {
            Command::WriteRegister(register, data) => data.len() == register.size(),
            Command::WritePayload(data) => (1..=32).contains(&data.len()),
            Command::ReadRegister(_, data)
            | Command::ReadPayload(data)
            | Command::FlushTx(data)
            | Command::FlushRx(data)
            | Command::Nop(data) => data.is_empty(),
        }
    }
}
