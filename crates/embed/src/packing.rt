// Packing.
ghost use Rattle.std.specs.Prelude.{◌≡◌, [], length, if◌then◌else◌, Some, None, nat_le, option_map};
ghost use Rattle.checks.specs.Bits.{bits};
ghost use Rattle.frames.specs.Packet.{buffer_after, frame_bits};
ghost use Rattle.frames.specs.Calls.{packet_of};
ghost use Rattle.embed.specs.Packing.{packet_given, carried, packed};

use checks::{Check, Crc8, Crc16};
use frames::{Address, Fields, Payload, Pid};

// The fields that the arguments say, if a frame can carry them.
fn fields_given(address: &[u8], pid: u8, no_ack: bool, payload: &[u8]) -> Option<Fields>
    ensures { option_map packet_of result ≡ (if carried (packet_given address.now pid no_ack payload.now) then Some (packet_given address.now pid no_ack payload.now) else None) }
{
    Some(Fields {
        address: Address::new(address)?,
        pid: Pid::try_from(pid).ok()?,
        no_ack,
        payload: Payload::new(payload)?,
    })
}

#[tactic(auto, unfolding(frames::specs::Octets::octets))]
fn pack<C: Check>(fields: &Fields, frame: &mut [u8]) -> usize
    ensures count { result ≡ length (if nat_le 42 (length frame.old) then frame_bits C.Check.W C.meaning (packet_of fields.now) else []) }
    ensures buffer { frame.new ≡ buffer_after (if nat_le 42 (length frame.old) then frame_bits C.Check.W C.meaning (packet_of fields.now) else []) frame.old }
{
    frames::pack::<C>(fields, frame).unwrap_or(0)
}

// Packs a frame at the front of the buffer, spare bits 0; later bytes stay. The answer is its bit count. It is 0, and the
// buffer stays, where an argument is none of its type (a kind other than 8 and 16, an address of other than 3 to 5 bytes,
// low byte first, a packet identity above 3, a payload of more than 32 bytes), and where the buffer has under 42 bytes.
#[tactic(auto, unfolding(frames::specs::Octets::octets))]
#[unsafe(no_mangle)]
pub extern "C" fn sinkapricot_pack(
    kind: u8,
    address: &[u8],
    pid: u8,
    no_ack: bool,
    payload: &[u8],
    frame: &mut [u8],
) -> usize
    ensures count { result ≡ length (packed kind (packet_given address.now pid no_ack payload.now) (length frame.old)) }
    ensures buffer { frame.new ≡ buffer_after (packed kind (packet_given address.now pid no_ack payload.now) (length frame.old)) frame.old }
{
    let Some(fields) = fields_given(address, pid, no_ack, payload) else {
        return 0;
    };
    match kind {
        8 => pack::<Crc8>(&fields, frame),
        16 => pack::<Crc16>(&fields, frame),
        _ => 0,
    }
}
