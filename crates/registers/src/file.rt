ghost use Rattle.std.specs.Prelude.{◌≡◌, ◌≤◌, length, slice_index};
ghost use Rattle.registers.specs.Table.{size_of};
ghost use Rattle.registers.specs.File.{padded, value_of, byte_of, written, places, at_reset, Holds, StartsAllowed};

use crate::held::{Registers, Value};
use crate::register::Register;
use std::array;

// The bytes as a value, with 0 behind them. `frames` pads to sizes of its own; to share it, one of the two crates would have to
// stand on the other.
fn padded(front: &[u8]) -> Value
    requires { length front.now ≤ 5 }
    ensures { result ≡ padded front.now }
{
    let mut bytes = [0; 5];
    bytes[0..front.len()].copy_from_slice(front);
    Value { bytes }
}

impl Registers {
    // Every register at its reset value; the host may write that value to each register that it writes and reads back. By
    // `from_fn`, which the compiler works out beforehand; `map` of an array is done anew at each call.
    pub fn reset() -> Registers
        ensures value { result ≡ at_reset }
        ensures allowed { StartsAllowed result }
    {
        let registers = Register::all();
        Registers {
            held: array::from_fn(|address| registers[address].reset_value()),
        }
    }

    // How many registers the file has.
    pub fn count(&self) -> usize
        ensures { (result ≡ 24) × (length self.now.held ≡ 24) }
    {
        self.held.len()
    }

    // The bytes that a register holds, the lowest first.
    pub fn value(&self, register: Register) -> &[u8]
        ensures value { result.now ≡ value_of self.now register }
        ensures len { length result.now ≡ size_of register }
        ensures lowest { slice_index result.now 0 ≡ byte_of self.now register }
    {
        let Value { bytes } = &self.held[usize::from(register.address())];
        &bytes[..register.size()]
    }

    // The lowest byte that a register holds.
    pub fn byte(&self, register: Register) -> u8
        ensures { result ≡ byte_of self.now register }
    {
        self.wide(register)[0]
    }

    // The five places of a register: the bytes that it holds, and 0 behind them. Of a five-byte one they are its value.
    pub fn wide(&self, register: Register) -> [u8; 5]
        ensures { result ≡ places self.now register }
    {
        self.held[usize::from(register.address())].bytes
    }

    // Puts `value` into a register, and leaves all others as they are; a value of another size changes nothing.
    pub fn write(&mut self, register: Register, value: &[u8])
        ensures after { self.new ≡ written self.old register value.now }
        ensures law { Holds self.old register value.now self.new }
    {
        if value.len() == register.size() {
            self.held[usize::from(register.address())] = padded(value);
        }
    }
}
