// What a register reads, in a reply.
ghost use Rattle.std.specs.Prelude.{◌≡◌};
ghost use Rattle.commands.specs.Reply.{reply_answer, replied};
ghost use Rattle.bench.specs.Live.{at_rest, shown};

use crate::live::Live;
use commands::{Flags, Refusal, fifo_status, observe_tx, reply, status_byte};
use registers::{Register, Registers};
use std::slice;

impl Live {
    // No flag stands, nothing was lost, and the queues are empty.
    pub fn at_rest() -> Live
        ensures { result ≡ at_rest }
    {
        Live {
            status: status_byte(Flags::none(), None, false),
            observe_tx: observe_tx(0, 0),
            fifo_status: fifo_status(0, 0),
        }
    }

    // What a register reads: what is live of it, or else what the registers hold.
    fn shown<'a>(&'a self, registers: &'a Registers, register: Register) -> &'a [u8]
        ensures { result.now ≡ shown self.now registers.now register }
    {
        match register {
            Register::Status => slice::from_ref(&self.status),
            Register::ObserveTx => slice::from_ref(&self.observe_tx),
            Register::Reserved => &[0x00],
            Register::FifoStatus => slice::from_ref(&self.fifo_status),
            _ => registers.value(register),
        }
    }
}

// Replies with STATUS and what the register reads.
pub fn reply_register(
    registers: &Registers,
    live: Live,
    register: Register,
    buffer: &mut [u8],
) -> Result<usize, Refusal>
    ensures answer { result ≡ reply_answer buffer.old (shown live registers.now register) }
    ensures after { buffer.new ≡ replied buffer.old live.status (shown live registers.now register) }
{
    reply(buffer, live.status, live.shown(registers, register))
}
