// The check before boxing.
ghost use Rattle.std.specs.Prelude.{◌≡◌, ◌≤◌, length, take};
ghost use Rattle.std.specs.Str.{bytes_eq};
ghost use Rattle.bench.specs.Checking.{config_fault, unanswered, en_aa_fault, en_rxaddr_fault, same_address, some_pipe, lower, address_fault, tx_addr_fault, width_fault, faulty, fault_of, check_answer, LowestFault};

use crate::unit::Bench;
use checks::Check;
use commands::Refusal;
use registers::{Pipe, Register};

// Whether two addresses are alike in their low bytes.
fn is_alike(a: &[u8], b: &[u8], width: usize) -> bool
    requires first { width ≤ length a.now }
    requires second { width ≤ length b.now }
    ensures { result ≡ bytes_eq (take width a.now) (take width b.now) }
{
    a[..width] == b[..width]
}

// The faults of single registers. Arrays are read by `iter`: their `into_iter` marks each item as it is taken out.
impl Bench {
    // CONFIG, for a check of so many bits.
    fn config_fault(&self, width: usize) -> bool
        ensures { result ≡ config_fault width self.now.registers }
    {
        !self.registers.crc_enabled()
            || self.registers.is_powered()
            || self.registers.crc_is_wide() != (width == 16)
    }

    // Whether the pipe is enabled and lacks its EN_AA bit.
    fn is_unanswered(&self, pipe: Pipe) -> bool
        ensures { result ≡ unanswered self.now.registers pipe }
    {
        self.registers.is_enabled(pipe) && !self.registers.is_acknowledged(pipe)
    }

    fn en_aa_fault(&self) -> bool
        ensures { result ≡ en_aa_fault self.now.registers }
    {
        if self.registers.is_receiver() {
            Pipe::all().iter().any(|pipe| self.is_unanswered(*pipe))
        } else {
            self.is_unanswered(Pipe::P0)
        }
    }

    fn en_rxaddr_fault(&self) -> bool
        ensures { result ≡ en_rxaddr_fault self.now.registers }
    {
        if self.registers.is_receiver() {
            !Pipe::all()
                .iter()
                .any(|pipe| self.registers.is_enabled(*pipe))
        } else {
            !self.registers.is_enabled(Pipe::P0)
        }
    }

    // Whether the lower pipe is enabled and has the address in use of the other.
    fn has_address_of(&self, pipe: Pipe, low: Pipe) -> bool
        ensures { result ≡ same_address self.now.registers pipe low }
    {
        self.registers.is_enabled(low)
            && is_alike(
                &self.registers.pipe_address(pipe),
                &self.registers.pipe_address(low),
                self.registers.address_width(),
            )
    }

    // Whether a lower enabled pipe has the address in use of the pipe. It goes over all six, a number that the compiler knows and
    // writes out; over a part of the array it would take twice the instructions.
    fn is_taken(&self, pipe: Pipe) -> bool
        ensures { result ≡ some_pipe (lower pipe) (same_address self.now.registers pipe) }
    {
        Pipe::all().iter().any(|low| low.index() < pipe.index() && self.has_address_of(pipe, *low))
    }

    fn address_fault(&self, pipe: Pipe) -> bool
        ensures { result ≡ address_fault self.now.registers pipe }
    {
        self.registers.is_receiver() && self.registers.is_enabled(pipe) && self.is_taken(pipe)
    }

    fn width_fault(&self, pipe: Pipe) -> bool
        ensures { result ≡ width_fault self.now.registers pipe }
    {
        self.registers.is_receiver()
            && self.registers.is_enabled(pipe)
            && self.registers.payload_width(pipe) == 0
    }

    fn tx_addr_fault(&self) -> bool
        ensures { result ≡ tx_addr_fault self.now.registers }
    {
        !self.registers.is_receiver()
            && !is_alike(
                self.registers.value(Register::TxAddr),
                &self.registers.pipe_address(Pipe::P0),
                self.registers.address_width(),
            )
    }

    // Whether the register has a fault, for a check of so many bits. The width goes as the number that it is in `Checking`:
    // with the kind of check as a type parameter each of its callers would be generic for one comparison.
    fn is_faulty(&self, register: Register, width: usize) -> bool
        ensures { result ≡ faulty width self.now.registers register }
    {
        match register {
            Register::Config => self.config_fault(width),
            Register::EnAa => self.en_aa_fault(),
            Register::EnRxaddr => self.en_rxaddr_fault(),
            Register::RxAddrP1 => self.address_fault(Pipe::P1),
            Register::RxAddrP2 => self.address_fault(Pipe::P2),
            Register::RxAddrP3 => self.address_fault(Pipe::P3),
            Register::RxAddrP4 => self.address_fault(Pipe::P4),
            Register::RxAddrP5 => self.address_fault(Pipe::P5),
            Register::TxAddr => self.tx_addr_fault(),
            Register::RxPwP0 => self.width_fault(Pipe::P0),
            Register::RxPwP1 => self.width_fault(Pipe::P1),
            Register::RxPwP2 => self.width_fault(Pipe::P2),
            Register::RxPwP3 => self.width_fault(Pipe::P3),
            Register::RxPwP4 => self.width_fault(Pipe::P4),
            Register::RxPwP5 => self.width_fault(Pipe::P5),
            _ => false,
        }
    }

    // The lowest register with a fault.
    fn lowest_fault(&self, width: usize) -> Option<Register>
        ensures { result ≡ fault_of width self.now.registers }
    {
        Register::all()
            .iter()
            .find(|register| self.is_faulty(**register, width))
            .copied()
    }
}

impl Bench {
    // The lowest register with a fault, for a kind of check; none if the unit can be boxed and will work.
    pub fn fault<C: Check>(&self) -> Option<Register>
        ensures value { result ≡ fault_of C.Check.W self.now.registers }
        ensures law { LowestFault C.Check.W self.now.registers result }
    {
        self.lowest_fault(C::W)
    }

    // The check call: a refusal that names the lowest register with a fault.
    pub fn check<C: Check>(&self) -> Result<(), Refusal>
        ensures { result ≡ check_answer (fault_of C.Check.W self.now.registers) }
    {
        self.fault::<C>()
            .map_or(Ok(()), |register| Err(Refusal::Fault(register)))
    }
}
