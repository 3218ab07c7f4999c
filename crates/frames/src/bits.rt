// Numbers and bytes in the bits of a buffer, whole bytes at a time. Each call takes its place, and there is no cursor that
// keeps one: the callers jump to the places that a frame's layout gives. A number of at most 16 bits is in up to three bytes;
// what it is to each of them has no loop, so that a place and a count that the caller knows leave one byte's shift and mask.
ghost use Rattle.std.specs.Prelude.{◌≡◌, ℕ, ◌+◌, ◌-◌, ◌*◌, ◌%◌, ◌^◌, ◌<◌, ◌≤◌, ◌++◌, false, length, take, drop, slice_set};
ghost use Rattle.std.proofs.Math.Seq.{paste};
ghost use Rattle.checks.specs.Bits.{word, bits};
ghost use Rattle.frames.specs.Octets.{number, octets, HasBits};
ghost use Rattle.frames.specs.Packet.{Bytes};

use checks::bit_at;

// One bit is written, the others stay.
pub(crate) fn put_bit(buf: &mut [u8], at: usize, bit: bool)
    requires { at < 8 * length buf.old }
    ensures { bits buf.new ≡ slice_set (bits buf.old) at bit }
{
    let mask = 0x80u8 >> (at % 8);
    if bit {
        buf[at / 8] |= mask;
    } else {
        buf[at / 8] &= !mask;
    }
}

// The low bits of a number are written within one byte, most significant first; the others stay.
fn put_within(buf: &mut [u8], at: usize, value: u16, count: usize)
    requires fits { at % 8 + count ≤ 8 }
    requires room { at + count ≤ 8 * length buf.old }
    requires some { 0 < count }
    ensures { bits buf.new ≡ paste (bits buf.old) at (word count value) count }
{
    let old = buf[at / 8] as u16;
    let behind = 8 - at % 8 - count;
    let before = old >> (behind + count) << count;
    let with = (before | value & 0xFF >> (8 - count)) << behind;
    buf[at / 8] = ((with | old & 0xFF >> (8 - behind)) % 256) as u8;
}

// The low bits of a number are written from a place on, most significant first; the others stay. They fill the first byte
// from the place on, and then up to two more.
#[inline(always)]
pub(crate) fn put_bits(buf: &mut [u8], at: usize, value: u16, count: usize)
    requires { HasBits buf.old at count × (count ≤ 16) }
    ensures { bits buf.new ≡ paste (bits buf.old) at (word count value) count }
{
    let room = 8 - at % 8;
    if count == 0 {
        return;
    }
    if count <= room {
        put_within(buf, at, value, count);
        return;
    }
    let rest = count - room;
    put_within(buf, at, value >> rest, room);
    if rest <= 8 {
        put_within(buf, at + room, value, rest);
    } else {
        put_within(buf, at + room, value >> (rest - 8), 8);
        put_within(buf, at + room + 8, value, rest - 8);
    }
}

// The number that bits within one byte write, most significant first.
fn get_within(buf: &[u8], at: usize, count: usize) -> u16
    requires fits { at % 8 + count ≤ 8 }
    requires room { at + count ≤ 8 * length buf.now }
    requires some { 0 < count }
    ensures value { result ≡ number (take count (drop at (bits buf.now))) }
    ensures below { result < 2 ^ count }
{
    let behind = 8 - at % 8 - count;
    buf[at / 8] as u16 >> behind & 0xFF >> (8 - count)
}

// The number that the bits from a place on write, most significant first.
#[inline(always)]
pub(crate) fn get_bits(buf: &[u8], at: usize, count: usize) -> u16
    requires { HasBits buf.now at count × (count ≤ 16) }
    ensures value { result ≡ number (take count (drop at (bits buf.now))) }
    ensures below { result < 2 ^ count }
{
    let room = 8 - at % 8;
    if count == 0 {
        return 0;
    }
    if count <= room {
        return get_within(buf, at, count);
    }
    let rest = count - room;
    let first = get_within(buf, at, room);
    if rest <= 8 {
        return first << rest | get_within(buf, at + room, rest);
    }
    let second = first << 8 | get_within(buf, at + room, 8);
    second << (rest - 8) | get_within(buf, at + room + 8, rest - 8)
}

// The byte that begins at a place of two bytes in a row.
fn across(first: u8, next: u8, place: usize) -> u8
    requires { place ≤ 8 }
    ensures { word 8 result ≡ take 8 (drop place (word 8 first ++ word 8 next)) }
{
    let both = (first as u16) << 8 | next as u16;
    ((both >> (8 - place)) % 256) as u8
}

// Eight bytes that begin with the last bits of a byte, as many as `place` says, and go on in eight others.
fn across_eight(last: u8, eight: &[u8; 8], place: usize) -> [u8; 8]
    requires some { 0 < place }
    requires few { place < 8 }
    ensures { bits result ≡ word place last ++ take (64 - place) (bits eight.now) }
{
    let kept = (last & 0xFF >> (8 - place)) as u64;
    (kept << (64 - place) | u64::from_be_bytes(*eight) >> place).to_be_bytes()
}

// Eight bytes are written at the front, the others stay. No copy_from_slice: it would ask each time whether the two overlap.
#[inline(always)]
fn put_eight(buf: &mut [u8], eight: [u8; 8])
    requires { 8 ≤ length buf.old }
    ensures { buf.new ≡ eight ++ drop 8 buf.old }
{
    *buf.first_chunk_mut::<8>().unwrap() = eight;
}

// Bytes are filled by the last bits of a byte, as many as `place` says, and on by as many other bytes, eight at once. The
// answer is the byte whose last bits, again as many, are left.
#[inline(always)]
fn fill_across(first: u8, src: &[u8], place: usize, out: &mut [u8]) -> u8
    requires some { 0 < place }
    requires few { place < 8 }
    requires fits { length src.now ≡ length out.old }
    ensures { bits out.new ++ word place result ≡ word place first ++ bits src.now }
{
    let mut last = first;
    let (eights, rest) = src.as_chunks::<8>();
    for (k, eight) in eights.iter().enumerate() {
        put_eight(&mut out[8 * k..8 * k + 8], across_eight(last, eight, place));
        last = eight[7];
    }
    let done = 8 * eights.len();
    for (i, b) in rest.iter().enumerate() {
        out[done + i] = across(last, *b, 8 - place);
        last = *b;
    }
    last
}

// The last bits of a byte, as many as `place` says, and then other bytes are written from a byte's start on; the other bits stay.
#[inline(always)]
pub(crate) fn put_behind(buf: &mut [u8], start: usize, first: u8, place: usize, src: &[u8])
    requires some { 0 < place }
    requires few { place < 8 }
    requires room { HasBits buf.old (8 * start) (place + 8 * length src.now) }
    ensures { bits buf.new ≡ paste (bits buf.old) (8 * start) (word place first ++ bits src.now) (place + 8 * length src.now) }
{
    let end = start + src.len();
    let last = fill_across(first, src, place, &mut buf[start..end]);
    put_within(buf, 8 * end, u16::from(last), place);
}

// Bytes are filled by the bits from a place on that is no byte's start.
#[inline(always)]
pub(crate) fn get_octets(buf: &[u8], at: usize, out: &mut [u8])
    requires room { HasBits buf.now at (8 * length out.old) }
    requires within { 0 < at % 8 }
    ensures { out.new ≡ octets (length out.old) (drop at (bits buf.now)) }
{
    let next = at / 8 + 1;
    let _last = fill_across(buf[at / 8], &buf[next..next + out.len()], 8 - at % 8, out);
}

// Bytes are written from a byte's start on; the other bytes stay.
#[inline(always)]
pub(crate) fn put_bytes(buf: &mut [u8], start: usize, src: &[u8])
    requires { start + length src.now ≤ length buf.old }
    ensures { bits buf.new ≡ paste (bits buf.old) (8 * start) (bits src.now) (8 * length src.now) }
{
    buf[start..start + src.len()].copy_from_slice(src);
}

// Bytes are filled by those from a byte's start on.
#[inline(always)]
pub(crate) fn get_bytes(buf: &[u8], start: usize, out: &mut [u8])
    requires { start + length out.old ≤ length buf.now }
    ensures { out.new ≡ octets (length out.old) (drop (8 * start) (bits buf.now)) }
{
    out.copy_from_slice(&buf[start..start + out.len()]);
}

// Nothing is done: the contract says that what a slice holds are bytes.
pub fn known_bytes(buf: &[u8])
    ensures { Bytes buf.now }
{
    // a call that is given the slice, after which the proof knows what its type keeps
    let _first = buf.first();
}
