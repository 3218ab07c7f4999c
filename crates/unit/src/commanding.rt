// Host commands on a boxed unit. Each order's function has the three clauses of `command`, of the answer, the state and the buffer: a
// relation over the three would only hide by its name that they are those of the public call.
ghost use Rattle.std.specs.Prelude.{◌≡◌, ◌<◌, [], ◌∷◌, length, true, slice_index_or, nat_lt};
ghost use Rattle.commands.specs.declared.refusal.Refusal.TheVariants.{ReplyRoom};
ghost use Rattle.commands.specs.Decode.{order, ordered, read_register, write_register, write_payload, read_payload, flush_tx, flush_rx, fits};
ghost use Rattle.commands.specs.Refusals.{first_of, unless};
ghost use Rattle.unit.specs.Commanding.{live_of, fixed, value_refusals, written, wrong_role, further_answer, further_after, further_buffer, serve_answer, serve_after, serve_buffer, command_answer, command_after, command_buffer};

use crate::entry::{Data, Outgoing};
use crate::state::{Boxed, State};
use bench::{Live, reply_register};
use checks::Check;
use commands::{Command, Refusal, decode, fifo_status, observe_tx, reply, status_byte};
use registers::Register;

// The bits of CONFIG that are fixed by boxing: bit 7, which means nothing, EN_CRC, CRCO and PRIM_RX.
const FIXED_BITS: u8 = 0x8D;

// The first of the data bytes. A write of none is refused, since no register allows it, so the 0 is never stored.
fn first_byte(data: &[u8]) -> u8
    ensures { result ≡ slice_index_or «data».now 0 0 }
{
    data.first().copied().unwrap_or(0)
}

// There is room for STATUS.
fn ensure_status_fits(buffer: &[u8]) -> Result<(), Refusal>
    ensures { result ≡ unless (first_of ((nat_lt (length buffer.now) 1, ReplyRoom) ∷ [])) tt }
{
    if buffer.is_empty() {
        Err(Refusal::ReplyRoom)
    } else {
        Ok(())
    }
}

impl State {
    // The registers that show what the unit does, as they read now.
    pub(crate) fn live(&self) -> Live
        ensures { result ≡ live_of self.now }
    {
        let pipe = self.rx.oldest().map(|received| received.pipe);
        Live {
            status: status_byte(self.core.flags, pipe, self.tx.is_full()),
            observe_tx: observe_tx(self.core.counts.lost, self.core.counts.again),
            fifo_status: fifo_status(self.tx.len(), self.rx.len()),
        }
    }

    // R_REGISTER.
    fn read_register(&self, register: Register, buffer: &mut [u8]) -> Result<usize, Refusal>
        ensures answer { result ≡ further_answer self.now (length buffer.old) (read_register register []) }
        ensures buffer { buffer.new ≡ further_buffer self.now buffer.old (read_register register []) }
    {
        let live = self.live();
        if register == Register::Config {
            reply(buffer, live.status, &[self.core.config])
        } else {
            reply_register(&self.registers, live, register, buffer)
        }
    }

    // Whether the register, or a bit of it that would change, is fixed by boxing.
    #[tactic(auto, using(crate::proofs::Fixed::masked))]
    fn is_fixed(&self, register: Register, value: u8) -> bool
        ensures { result ≡ fixed self.now register (value ∷ []) }
    {
        match register {
            Register::Status => false,
            Register::Config => (self.core.config ^ value) & FIXED_BITS != 0,
            _ => true,
        }
    }

    // A write that is neither read-only nor fixed reaches STATUS or, being the only other one left, CONFIG.
    fn store(&mut self, register: Register, value: u8)
        ensures { self.new ≡ written self.old register value }
    {
        match register {
            Register::Status => self.core.flags = self.core.flags.cleared_by(value),
            _ => self.core.configure(value),
        }
    }

    // The register takes the value.
    fn ensure_takes(&self, register: Register, data: &[u8]) -> Result<(), Refusal>
        ensures { result ≡ unless (first_of (value_refusals self.now register «data».now)) tt }
    {
        if register.is_read_only() || self.is_fixed(register, first_byte(data)) {
            return Err(Refusal::ReadOnly);
        }
        if self.core.mode.is_busy() && register != Register::Status {
            return Err(Refusal::Busy);
        }
        if !register.allows(data) {
            return Err(Refusal::NotAllowed(register));
        }
        Ok(())
    }

    // W_REGISTER.
    fn write_register(
        &mut self,
        register: Register,
        data: &[u8],
        buffer: &mut [u8],
    ) -> Result<usize, Refusal>
        ensures answer { result ≡ further_answer self.old (length buffer.old) (write_register register «data».now) }
        ensures state { self.new ≡ further_after self.old (length buffer.old) (write_register register «data».now) }
        ensures buffer { buffer.new ≡ further_buffer self.old buffer.old (write_register register «data».now) }
    {
        ensure_status_fits(buffer)?;
        self.ensure_takes(register, data)?;
        let status = self.live().status;
        self.store(register, first_byte(data));
        reply(buffer, status, &[])
    }

    // W_TX_PAYLOAD.
    fn write_payload(&mut self, data: &[u8], buffer: &mut [u8]) -> Result<usize, Refusal>
        requires { fits (write_payload «data».now) ≡ true }
        ensures answer { result ≡ further_answer self.old (length buffer.old) (write_payload «data».now) }
        ensures state { self.new ≡ further_after self.old (length buffer.old) (write_payload «data».now) }
        ensures buffer { buffer.new ≡ further_buffer self.old buffer.old (write_payload «data».now) }
    {
        let data = Data::new(data).ok_or(Refusal::DataLength)?;
        ensure_status_fits(buffer)?;
        let status = self.live().status;
        let pid = self.pid.next();
        self.tx
            .push(Outgoing { pid, data })
            .map_err(|_| Refusal::QueueFull)?;
        self.pid = pid;
        reply(buffer, status, &[])
    }

    // R_RX_PAYLOAD.
    fn read_payload(&mut self, buffer: &mut [u8]) -> Result<usize, Refusal>
        ensures answer { result ≡ further_answer self.old (length buffer.old) (read_payload []) }
        ensures state { self.new ≡ further_after self.old (length buffer.old) (read_payload []) }
        ensures buffer { buffer.new ≡ further_buffer self.old buffer.old (read_payload []) }
    {
        let status = self.live().status;
        let received = self.rx.oldest().ok_or(Refusal::NothingReceived)?;
        let length = reply(buffer, status, received.data.payload.bytes())?;
        let _ = self.rx.pop();
        Ok(length)
    }

    // FLUSH_TX.
    fn flush_tx(&mut self, buffer: &mut [u8]) -> Result<usize, Refusal>
        ensures answer { result ≡ further_answer self.old (length buffer.old) (flush_tx []) }
        ensures state { self.new ≡ further_after self.old (length buffer.old) (flush_tx []) }
        ensures buffer { buffer.new ≡ further_buffer self.old buffer.old (flush_tx []) }
    {
        let length = reply(buffer, self.live().status, &[])?;
        self.tx.clear();
        self.core.flush();
        Ok(length)
    }

    // FLUSH_RX.
    fn flush_rx(&mut self, buffer: &mut [u8]) -> Result<usize, Refusal>
        ensures answer { result ≡ further_answer self.old (length buffer.old) (flush_rx []) }
        ensures state { self.new ≡ further_after self.old (length buffer.old) (flush_rx []) }
        ensures buffer { buffer.new ≡ further_buffer self.old buffer.old (flush_rx []) }
    {
        let length = reply(buffer, self.live().status, &[])?;
        self.rx.clear();
        Ok(length)
    }

    // Whether the command is one for the other role.
    fn is_for_other_role(&self, command: &Command<'_>) -> bool
        ensures { result ≡ wrong_role self.now (order command.now) }
    {
        match command {
            Command::WritePayload(_) | Command::FlushTx(_) => self.registers.is_receiver(),
            Command::ReadPayload(_) | Command::FlushRx(_) => !self.registers.is_receiver(),
            Command::ReadRegister(..) | Command::WriteRegister(..) | Command::Nop(_) => false,
        }
    }

    // A command that was read. One match: a table of functions would lose what each of them promises.
    fn serve(&mut self, command: Command<'_>, buffer: &mut [u8]) -> Result<usize, Refusal>
        ensures answer { result ≡ serve_answer self.old (length buffer.old) (order command.entry) }
        ensures state { self.new ≡ serve_after self.old (length buffer.old) (order command.entry) }
        ensures buffer { buffer.new ≡ serve_buffer self.old buffer.old (order command.entry) }
    {
        if self.is_for_other_role(&command) {
            return Err(Refusal::NotForUnit);
        }
        if !command.data_fits() {
            return Err(Refusal::DataLength);
        }
        match command {
            Command::ReadRegister(register, _) => self.read_register(register, buffer),
            Command::WriteRegister(register, data) => self.write_register(register, data, buffer),
            Command::WritePayload(data) => self.write_payload(data, buffer),
            Command::ReadPayload(_) => self.read_payload(buffer),
            Command::FlushTx(_) => self.flush_tx(buffer),
            Command::FlushRx(_) => self.flush_rx(buffer),
            Command::Nop(_) => reply(buffer, self.live().status, &[]),
        }
    }

    // Carries out a host command and answers the length of the reply.
    pub fn command(&mut self, bytes: &[u8], buffer: &mut [u8]) -> Result<usize, Refusal>
        ensures answer { result ≡ command_answer self.old (length buffer.old) (ordered bytes.now) }
        ensures state { self.new ≡ command_after self.old (length buffer.old) (ordered bytes.now) }
        ensures buffer { buffer.new ≡ command_buffer self.old buffer.old (ordered bytes.now) }
    {
        self.ensure_sound()?;
        self.serve(decode(bytes)?, buffer)
    }
}

impl<C: Check> Boxed<C> {
    // Carries out a host command and answers the length of the reply.
    pub fn command(&mut self, bytes: &[u8], buffer: &mut [u8]) -> Result<usize, Refusal>
        ensures answer { result ≡ command_answer self.old.state (length buffer.old) (ordered bytes.now) }
        ensures state { self.new.state ≡ command_after self.old.state (length buffer.old) (ordered bytes.now) }
        ensures buffer { buffer.new ≡ command_buffer self.old.state buffer.old (ordered bytes.now) }
    {
        self.state.command(bytes, buffer)
    }
}
