// Host commands on a bench unit.
ghost use Rattle.std.specs.Prelude.{◌≡◌, length, Ok};
ghost use Rattle.registers.specs.Table.{size_of};
ghost use Rattle.registers.specs.File.{at_reset};
ghost use Rattle.commands.specs.Decode.{ordered, write_register};
ghost use Rattle.bench.specs.Commands.{stored, command_answer, registers_after, reply_after};

use crate::live::Live;
use crate::readout::reply_register;
use crate::unit::Bench;
use commands::{Command, Refusal, decode, reply};
use registers::{Register, Registers};

impl Bench {
    // A new unit: every register at reset.
    pub fn new() -> Bench
        ensures { result.registers ≡ at_reset }
    {
        Bench {
            registers: Registers::reset(),
        }
    }

    // Puts a value into a register; STATUS keeps none, and its flags are clear on the bench.
    fn store(&mut self, register: Register, value: &[u8])
        ensures { self.new.registers ≡ stored self.old.registers (write_register register value.now) }
    {
        if register != Register::Status {
            self.registers.write(register, value);
        }
    }

    // W_REGISTER, with as many bytes as the register holds.
    fn write(
        &mut self,
        register: Register,
        data: &[u8],
        buffer: &mut [u8],
    ) -> Result<usize, Refusal>
        requires { length «data».now ≡ size_of register }
        ensures answer { result ≡ command_answer self.old.registers (length buffer.old) (Ok (write_register register «data».now)) }
        ensures registers { self.new.registers ≡ registers_after self.old.registers (length buffer.old) (Ok (write_register register «data».now)) }
        ensures reply { buffer.new ≡ reply_after self.old.registers buffer.old (Ok (write_register register «data».now)) }
    {
        if buffer.is_empty() {
            return Err(Refusal::ReplyRoom);
        }
        if register.is_read_only() {
            return Err(Refusal::ReadOnly);
        }
        if !register.allows(data) {
            return Err(Refusal::NotAllowed(register));
        }
        self.store(register, data);
        reply(buffer, Live::at_rest().status, &[])
    }

    // Carries out a host command and answers the length of the reply; register commands and NOP are served.
    pub fn command(&mut self, bytes: &[u8], buffer: &mut [u8]) -> Result<usize, Refusal>
        ensures answer { result ≡ command_answer self.old.registers (length buffer.old) (ordered bytes.now) }
        ensures registers { self.new.registers ≡ registers_after self.old.registers (length buffer.old) (ordered bytes.now) }
        ensures reply { buffer.new ≡ reply_after self.old.registers buffer.old (ordered bytes.now) }
    {
        let command = decode(bytes)?;
        match command {
            Command::WritePayload(_)
            | Command::ReadPayload(_)
            | Command::FlushTx(_)
            | Command::FlushRx(_) => Err(Refusal::NotForUnit),
            _ if !command.data_fits() => Err(Refusal::DataLength),
            Command::ReadRegister(register, _) => {
                reply_register(&self.registers, Live::at_rest(), register, buffer)
            }
            Command::WriteRegister(register, data) => self.write(register, data, buffer),
            Command::Nop(_) => reply(buffer, Live::at_rest().status, &[]),
        }
    }
}
