ghost use Rattle.std.specs.Prelude.{◌≡◌, ℕ, ◌+◌, ◌*◌, ◌<◌, ◌≤◌, ◌++◌, reverse, length, take};
ghost use Rattle.std.proofs.Math.Seq.{paste};
ghost use Rattle.checks.specs.Bits.{word, bits};
ghost use Rattle.frames.specs.Packet.{Valid, covered, preamble};
ghost use Rattle.frames.specs.Calls.{width_of, pid_number, address_bytes, packet_of, Packed};

use crate::bits::{known_bytes, put_behind, put_bits, put_bytes};
use crate::fields::{Address, AddressWidth, Fields, Refusal};
use crate::layout::{Layout, check_before};
use crate::making::known_fields;
use checks::{Check, bit_at};

// How many bytes the longest frame fills; clauses say the number.
const LONGEST: usize = 42;

// Preamble and address are written at the front, the address high byte first. Each caller names its width by a number, for
// which there is neither a loop nor a call.
#[inline(always)]
fn put_front(frame: &mut [u8], held: [u8; 5], width: usize)
    requires some { 0 < width }
    requires few { width ≤ 5 }
    requires room { 6 ≤ length frame.old }
    ensures { bits frame.new ≡ paste (bits frame.old) 0 (word 8 (preamble (bits (reverse (take width held)))) ++ bits (reverse (take width held))) (8 + 8 * width) }
{
    let mut address = held;
    let high_first = &mut address[0..width];
    high_first.reverse();
    let preamble = if bit_at(high_first, 0) { 0xAA } else { 0x55 };
    put_bits(frame, 0, preamble, 8);
    put_bytes(frame, 1, high_first);
}

#[inline(always)]
fn put_address(frame: &mut [u8], address: &Address)
    requires { 6 ≤ length frame.old }
    ensures { bits frame.new ≡ paste (bits frame.old) 0 (word 8 (preamble (bits (reverse (address_bytes address.now)))) ++ bits (reverse (address_bytes address.now))) (8 + 8 * width_of address.now.wide) }
{
    match address.wide {
        AddressWidth::Three => put_front(frame, address.held, 3),
        AddressWidth::Four => put_front(frame, address.held, 4),
        AddressWidth::Five => put_front(frame, address.held, 5),
    }
}

// Length and packet identity as a byte.
fn length_and_pid(fields: &Fields) -> u16
    ensures { word 8 result ≡ word 6 fields.now.payload.len ++ word 2 (pid_number fields.now.pid) }
{
    u16::from(fields.payload.len) << 2 | u16::from(fields.pid.number())
}

// All but the check is written at the front; the answer is how many bits that are.
#[inline(always)]
fn put_covered(fields: &Fields, frame: &mut [u8]) -> usize
    requires { 42 ≤ length frame.old }
    ensures count { result ≡ 8 + length (covered (packet_of fields.now)) }
    ensures small { result ≤ 313 }
    ensures bits { bits frame.new ≡ paste (bits frame.old) 0 (word 8 (preamble (covered (packet_of fields.now))) ++ covered (packet_of fields.now)) result }
{
    // the fields are read before anything is written: the compiler cannot tell that the buffer does not hold them
    let layout = Layout::of(fields);
    let payload = fields.payload.bytes();
    let control = length_and_pid(fields);
    let no_ack = u8::from(fields.no_ack);
    put_address(frame, &fields.address);
    put_bits(frame, layout.wide.control(), control, 8);
    // from here on each byte stands one bit off a byte's start
    put_behind(frame, 2 + layout.wide.bytes(), no_ack, 1, payload);
    layout.check()
}

// The frame's bytes, spare bits 0; later bytes stay. The answer is the bit count.
#[inline(always)]
pub fn pack<C: Check>(fields: &Fields, frame: &mut [u8]) -> Result<usize, Refusal>
    ensures sound { Valid (width_of fields.now.address.wide) (packet_of fields.now) }
    ensures packed { Packed C.Check.W C.meaning (packet_of fields.now) frame.old result frame.new }
{
    known_fields(fields);
    if frame.len() < LONGEST {
        return Err(Refusal::FrameBytes);
    }
    known_bytes(frame);
    let end = put_covered(fields, frame);
    let check = check_before::<C>(frame, end);
    let width = C::W;
    put_bits(frame, end, check, width);
    put_bits(frame, end + width, 0, 7);
    Ok(end + width)
}
