// Reading.
ghost use Rattle.std.specs.Prelude.{◌≡◌, ◌*◌, ◌++◌, length, take, drop, replicate};
ghost use Rattle.checks.specs.Bits.{bits as bits_of};
ghost use Rattle.frames.specs.Packet.{reading};
ghost use Rattle.frames.specs.Calls.{width_of, packet_of, address_bytes};
ghost use Rattle.embed.specs.Reading.{no_packet, outcome_number, shown, outcome_of, after, outcome, packet_after};

use checks::{Check, Crc8, Crc16};
use frames::{Address, AddressWidth, Heard};

// What was read, as C has it: of the address the bytes in use stand in front, low byte first, of the payload as many as its
// length says, and 0 behind them.
#[repr(C)]
#[derive(Clone, Copy)]
pub struct PacketRead {
    pub check: u16,
    pub pid: u8,
    pub no_ack: bool,
    pub length: u8,
    pub address: [u8; 5],
    pub payload: [u8; 32],
}

impl PacketRead {
    // Before anything was read.
    pub(crate) fn none() -> PacketRead
        ensures { result ≡ no_packet }
    {
        PacketRead {
            check: 0,
            pid: 0,
            no_ack: false,
            length: 0,
            address: [0; 5],
            payload: [0; 32],
        }
    }
}

// What a call of the reader says; the numbers are those of the header.
#[derive(Clone, Copy)]
enum Outcome {
    // bit count or check are not a frame's
    Nothing = 0,
    Packet = 1,
    // bits beyond the bytes: the number of the frames' refusal
    Refused = 18,
    // a kind other than 8 and 16, or an address width other than 3 to 5
    NoCall = 255,
}

// The bytes of an address, with 0 behind them. By patterns: so few bytes are not worth a call that copies them.
fn address_shown(address: &Address) -> [u8; 5]
    ensures { result ≡ address_bytes address.now ++ drop (length (address_bytes address.now)) (replicate 5 0) }
{
    // there are 3 to 5: no other arm is ever taken
    let _few = address.width().bytes();
    match *address.bytes() {
        [a, b, c] => [a, b, c, 0, 0],
        [a, b, c, d] => [a, b, c, d, 0],
        [a, b, c, d, e] => [a, b, c, d, e],
        _ => [0; 5],
    }
}

fn found(heard: &Heard) -> PacketRead
    ensures { result ≡ shown heard.now.check (packet_of heard.now.fields) }
{
    let fields = &heard.fields;
    let address = address_shown(&fields.address);
    let bytes = fields.payload.bytes();
    let mut payload = [0; 32];
    payload[0..bytes.len()].copy_from_slice(bytes);
    PacketRead {
        check: heard.check,
        pid: fields.pid.number(),
        no_ack: fields.no_ack,
        length: bytes.len() as u8,
        address,
        payload,
    }
}

fn read<C: Check>(bytes: &[u8], bits: usize, wide: AddressWidth, packet: &mut PacketRead) -> Outcome
    ensures outcome { result ≡ outcome_of (8 * length bytes.now) bits (reading C.Check.W C.meaning (width_of wide) (take bits (bits_of bytes.now))) }
    ensures packet { packet.new ≡ after C.meaning packet.old (8 * length bytes.now) bits (reading C.Check.W C.meaning (width_of wide) (take bits (bits_of bytes.now))) }
{
    match frames::read::<C>(bytes, bits, wide) {
        Err(_) => Outcome::Refused,
        Ok(None) => Outcome::Nothing,
        Ok(Some(heard)) => {
            *packet = found(&heard);
            Outcome::Packet
        }
    }
}

// Reads the first bits of a byte string as a frame with an address of so many bytes. 1: a packet, which is written to
// `packet`. Else `packet` stays: 0: bit count or check are not a frame's; 18: there are fewer bits; 255: the kind is neither
// 8 nor 16, or the address width none of 3, 4 and 5.
#[unsafe(no_mangle)]
pub extern "C" fn sinkapricot_read(
    kind: u8,
    width: usize,
    bytes: &[u8],
    bits: usize,
    packet: &mut PacketRead,
) -> u8
    ensures outcome { result ≡ outcome_number (outcome kind width bytes.now bits) }
    ensures packet { packet.new ≡ packet_after packet.old kind width bytes.now bits }
{
    let Ok(wide) = AddressWidth::try_from(width) else {
        return Outcome::NoCall as u8;
    };
    let outcome = match kind {
        8 => read::<Crc8>(bytes, bits, wide, packet),
        16 => read::<Crc16>(bytes, bits, wide, packet),
        _ => Outcome::NoCall,
    };
    outcome as u8
}
