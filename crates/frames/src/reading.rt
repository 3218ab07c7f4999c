ghost use Rattle.std.specs.Prelude.{◌≡◌, ℕ, ◌+◌, ◌*◌, ◌≤◌, reverse, length, take, drop, IfSome, if◌then◌else◌, Some, None, option_map, nat_le};
ghost use Rattle.checks.specs.Bits.{bits};
ghost use Rattle.frames.specs.Octets.{octets};
ghost use Rattle.frames.specs.Packet.{covered, length_field, count_fits, fields_at, reading};
ghost use Rattle.frames.specs.Calls.{width_of, packet_of, address_bytes, payload_bytes, payload_of, Reads, Exact};

use crate::bits::{get_bits, get_bytes, get_octets};
use crate::fields::{Address, AddressWidth, Fields, Heard, MOST, Payload, Pid, Refusal};
use crate::layout::{Layout, check_before};
use checks::{Check, bit_at};

// `frame`, `count` and `wide` are the public call's own parameters, which the two private calls below take in their turn.

// Whether bytes hold that many bits.
fn holds(bytes: &[u8], count: usize) -> bool
    ensures { result ≡ nat_le count (8 * length bytes.now) }
{
    count.div_ceil(8) <= bytes.len()
}

// The layout that the length field says, where the bit count fits it.
fn layout_of(frame: &[u8], count: usize, wide: AddressWidth, size: usize) -> Option<Layout>
    requires { (count ≤ 8 * length frame.now) × (size ≤ 16) }
    ensures value { option_map (λ layout. layout.len) result ≡ (if count_fits size (width_of wide) (take count (bits frame.now)) then Some (length_field (width_of wide) (take count (bits frame.now))) else None) }
    ensures places { IfSome result (λ layout. (layout.wide ≡ wide) × (count ≡ 8 + 8 * width_of wide + 9 + 8 * layout.len + size)) }
{
    let control = wide.control();
    if count < control + 9 + size {
        return None;
    }
    let len = usize::from(get_bits(frame, control, 6));
    if len > MOST {
        return None;
    }
    let layout = Layout { wide, len };
    if layout.check() + size != count {
        return None;
    }
    Some(layout)
}

// The bytes of an address, low byte first, behind a preamble. Each caller names its width by a number, for which there is
// neither a loop nor a call.
#[inline(always)]
fn low_first(frame: &[u8], width: usize) -> [u8; 5]
    requires few { width ≤ 5 }
    requires room { 1 + width ≤ length frame.now }
    ensures { take width result ≡ reverse (octets width (drop 8 (bits frame.now))) }
{
    let mut address = [0; 5];
    let high_first = &mut address[0..width];
    get_bytes(frame, 1, high_first);
    high_first.reverse();
    address
}

#[inline(always)]
fn address_at(frame: &[u8], wide: AddressWidth) -> Address
    requires { 1 + width_of wide ≤ length frame.now }
    ensures { address_bytes result ≡ reverse (octets (width_of wide) (drop 8 (bits frame.now))) }
{
    match wide {
        AddressWidth::Three => Address::of_low_bytes(low_first(frame, 3), wide),
        AddressWidth::Four => Address::of_low_bytes(low_first(frame, 4), wide),
        AddressWidth::Five => Address::of_low_bytes(low_first(frame, 5), wide),
    }
}

// What stands in the places of the fields.
#[inline(always)]
fn fields_at(frame: &[u8], layout: Layout) -> Fields
    requires { 8 + 8 * width_of layout.wide + 9 + 8 * layout.len ≤ 8 * length frame.now }
    ensures value { packet_of result ≡ fields_at (width_of layout.wide) layout.len (bits frame.now) }
    ensures zeros { result.payload ≡ payload_of (payload_bytes result.payload) }
{
    let control = layout.wide.control();
    // two bits are a number below 4
    let pid = Pid::try_from(get_bits(frame, control + 6, 2) as u8).unwrap();
    let mut payload = [0; MOST];
    get_octets(frame, layout.payload(), &mut payload[0..layout.len]);
    Fields {
        address: address_at(frame, layout.wide),
        pid,
        no_ack: bit_at(frame, control + 8),
        payload: Payload {
            held: payload,
            len: layout.len as u8,
        },
    }
}

// Where the parts of a frame begin that has the right bit count and check, and its check.
struct Sound {
    layout: Layout,
    check: u16,
}

// What that many bits say: nothing unless bit count and check are right.
#[inline(always)]
fn sound_of<C: Check>(frame: &[u8], count: usize, wide: AddressWidth) -> Option<Sound>
    requires { count ≤ 8 * length frame.now }
    ensures value { option_map (λ s. fields_at (width_of s.layout.wide) s.layout.len (bits frame.now)) result ≡ reading C.Check.W C.meaning (width_of wide) (take count (bits frame.now)) }
    ensures check { IfSome result (λ s. s.check ≡ C.meaning (covered (fields_at (width_of s.layout.wide) s.layout.len (bits frame.now)))) }
    ensures places { IfSome result (λ s. 8 + 8 * width_of s.layout.wide + 9 + 8 * s.layout.len ≤ 8 * length frame.now) }
{
    let size = C::W;
    let layout = layout_of(frame, count, wide, size)?;
    let end = layout.check();
    let check = get_bits(frame, end, size);
    if check_before::<C>(frame, end) != check {
        return None;
    }
    Some(Sound { layout, check })
}

// What the first bits of a frame say to a reader of addresses of that width: nothing unless bit count and check are right.
#[inline(always)]
pub fn read<C: Check>(
    frame: &[u8],
    count: usize,
    wide: AddressWidth,
) -> Result<Option<Heard>, Refusal>
    ensures value { Reads C.Check.W C.meaning (width_of wide) frame.now count result }
    ensures exact { Exact C.Check.W C.meaning (width_of wide) frame.now count result }
{
    if !holds(frame, count) {
        return Err(Refusal::FrameBytes);
    }
    let Some(Sound { layout, check }) = sound_of::<C>(frame, count, wide) else {
        return Ok(None);
    };
    Ok(Some(Heard {
        fields: fields_at(frame, layout),
        check,
    }))
}
