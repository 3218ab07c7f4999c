ghost use Rattle.std.specs.Prelude.{◌≡◌};
ghost use Rattle.commands.specs.Reply.{reply_answer, replied};

use crate::refusal::Refusal;

// Writes a reply into the buffer, STATUS and then the answer, and answers its length; later bytes stay.
// A buffer that is too short is refused and stays as it is.
pub fn reply(buffer: &mut [u8], status: u8, answer: &[u8]) -> Result<usize, Refusal>
    ensures answer { result ≡ reply_answer buffer.old answer.now }
    ensures after { buffer.new ≡ replied buffer.old status answer.now }
{
    let length = answer.len();
    if buffer.len() <= length {
        return Err(Refusal::ReplyRoom);
    }
    buffer[0] = status;
    buffer[1..1 + length].copy_from_slice(answer);
    Ok(1 + length)
}
