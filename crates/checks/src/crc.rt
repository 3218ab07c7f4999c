// Cyclic redundancy checks, by table.
ghost use Rattle.std.specs.Prelude.{◌≡◌, ℕ, ◌%◌, ◌^◌, ◌<◌, ◌≤◌, ◌+◌, ◌*◌, Bool, ◌⊎◌, List, length, take, refl};
ghost use Rattle.std.proofs.Common.{lit<, rules};
ghost use Rattle.checks.specs.Bits.{word, bits};
ghost use Rattle.checks.specs.Crc.{step, run, crc8, crc16};
ghost use Rattle.checks.specs.Law.{positive, every_below, every_burst};

use crate::kind::{Check, Word};

// What tells one cyclic redundancy check from another.
pub trait Parameters {
    type Word: Word;

    const WIDTH: usize;

    const START: u16;

    ghost WIDTH: { ℕ };

    ghost POLYNOMIAL: { ℕ };

    ghost START: { ℕ };

    ghost number: { List Bool → ℕ };

    // What a byte with so many bytes 0 behind it makes of the register 0.
    fn entry(byte: u8, behind: usize) -> u16
        requires { behind < 8 }
        ensures { result ≡ run WIDTH POLYNOMIAL 0 (word (8 * (behind + 1)) (byte * 2 ^ (8 * behind))) };

    // The register's number as the check's word.
    fn word(register: u16) -> Self::Word
        requires { register < 2 ^ WIDTH }
        ensures { Self.Word.Word.value result ≡ register };

    ghost ran: { number ≡ run WIDTH POLYNOMIAL START };

    ghost wide: { (WIDTH ≡ 8) ⊎ (WIDTH ≡ 16) };

    ghost odd: { POLYNOMIAL % 2 ≡ 1 };

    ghost small: { POLYNOMIAL < 2 ^ WIDTH };

    ghost begun: { START < 2 ^ WIDTH };
}

// What at most 8 bits of a number make of the register: its top bits are combined with them, the others move up.
fn steps<P: Parameters>(register: u16, number: u8, count: usize) -> u16
    requires below { register < 2 ^ P.WIDTH }
    requires fits { number < 2 ^ count }
    requires within { count ≤ 8 }
    ensures below { result < 2 ^ P.WIDTH }
    ensures same { result ≡ run P.WIDTH P.POLYNOMIAL register (word count number) }
{
    let moved = u32::from(register) << count;
    let met = (moved >> P::WIDTH) as u8 ^ number;
    let kept = moved & u32::MAX >> (32 - P::WIDTH);
    P::entry(met, 0) ^ kept as u16
}

// What at most 8 bytes make of the register 0. Each does so independently.
#[inline(always)]
fn from_none<P: Parameters>(bytes: &[u8]) -> u16
    requires { length bytes.now ≤ 8 }
    ensures { result ≡ run P.WIDTH P.POLYNOMIAL 0 (bits bytes.now) }
{
    let mut register = 0;
    for i in 0..bytes.len() {
        register ^= P::entry(bytes[i], bytes.len() - 1 - i);
    }
    register
}

// What at most 8 bytes make of the register: all its bits are combined with the first two.
#[inline(always)]
fn at_once<P: Parameters>(register: u16, bytes: &[u8]) -> u16
    requires below { register < 2 ^ P.WIDTH }
    requires few { length bytes.now ≤ 8 }
    ensures below { result < 2 ^ P.WIDTH }
    ensures same { result ≡ run P.WIDTH P.POLYNOMIAL register (bits bytes.now) }
{
    match bytes {
        [first, second, rest @ ..] => {
            // the others first: they do not wait for the register
            let others = from_none::<P>(rest);
            let top = register << (16 - P::WIDTH);
            let high = (top >> 8) as u8;
            let low = (top & 0xFF) as u8;
            others ^ P::entry(low ^ *second, rest.len()) ^ P::entry(high ^ *first, rest.len() + 1)
        }
        [only] => steps::<P>(register, *only, 8),
        [] => register,
    }
}

// The register after the first bytes, so many, and the bytes left; all are left if there are fewer.
#[inline(always)]
fn front<P: Parameters>(register: u16, bytes: &[u8], count: usize) -> (u16, &[u8])
    requires below { register < 2 ^ P.WIDTH }
    requires few { count ≤ 8 }
    ensures below { result.0 < 2 ^ P.WIDTH }
    ensures same { run P.WIDTH P.POLYNOMIAL result.0 (bits result.1.now) ≡ run P.WIDTH P.POLYNOMIAL register (bits bytes.now) }
    ensures no_more { length result.1.now ≤ length bytes.now }
    ensures fewer { count ≤ length bytes.now → length result.1.now + count ≤ length bytes.now }
{
    match bytes.split_at_checked(count) {
        Some((first, rest)) => (at_once::<P>(register, first), rest),
        None => (register, bytes),
    }
}

// The register after a byte string. The counts are literals, so that each is compiled without a loop.
fn through<P: Parameters>(bytes: &[u8]) -> u16
    ensures below { result < 2 ^ P.WIDTH }
    ensures same { result ≡ run P.WIDTH P.POLYNOMIAL P.START (bits bytes.now) }
{
    let mut register = P::START;
    let mut left = bytes;
    while left.len() >= 8 {
        (register, left) = front::<P>(register, left, 8);
    }
    let (register, left) = front::<P>(register, left, 4);
    let (register, left) = front::<P>(register, left, 2);
    at_once::<P>(register, left)
}

// The register after the first n bits, after all if there are fewer.
fn remainder<P: Parameters>(bytes: &[u8], n: usize) -> u16
    ensures below { result < 2 ^ P.WIDTH }
    ensures same { result ≡ run P.WIDTH P.POLYNOMIAL P.START (take n (bits bytes.now)) }
{
    let whole = bytes.len().min(n / 8);
    let register = through::<P>(&bytes[..whole]);
    match bytes.get(whole) {
        Some(byte) => {
            let spare = n % 8;
            let first = u16::from(*byte) >> (8 - spare);
            steps::<P>(register, first as u8, spare)
        }
        None => register,
    }
}

impl<P: Parameters> Check for P {
    type Word = P::Word;

    const W: usize = P::WIDTH;

    ghost W = { P.WIDTH };

    ghost meaning = { P.number };

    ghost wide = { P.wide };

    ghost below = { every_below P.WIDTH P.POLYNOMIAL P.START P.number P.ran (positive P.wide) P.odd P.small P.begun };

    ghost burst = { every_burst P.WIDTH P.POLYNOMIAL P.START P.number P.ran (positive P.wide) P.odd P.small P.begun };

    fn of(bytes: &[u8], n: usize) -> P::Word {
        P::word(remainder::<P>(bytes, n))
    }
}

// The 256 exclusive ors of some of eight numbers, at the place whose bits say which, the first number at bit 0.
macro_rules! sums {
    ([$($sum:expr),*]) => { [$($sum),*] };
    ([$($sum:expr),*] $next:literal $($rest:literal)*) => {
        sums!([$($sum,)* $($sum ^ $next),*] $($rest)*)
    };
}

// What each byte makes of the register 0, with 0 to 7 bytes 0 behind it. The bits of a byte do so independently.
static TABLES_8: [[u16; 256]; 8] = [
    sums!([0] 0x07 0x0E 0x1C 0x38 0x70 0xE0 0xC7 0x89),
    sums!([0] 0x15 0x2A 0x54 0xA8 0x57 0xAE 0x5B 0xB6),
    sums!([0] 0x6B 0xD6 0xAB 0x51 0xA2 0x43 0x86 0x0B),
    sums!([0] 0x16 0x2C 0x58 0xB0 0x67 0xCE 0x9B 0x31),
    sums!([0] 0x62 0xC4 0x8F 0x19 0x32 0x64 0xC8 0x97),
    sums!([0] 0x29 0x52 0xA4 0x4F 0x9E 0x3B 0x76 0xEC),
    sums!([0] 0xDF 0xB9 0x75 0xEA 0xD3 0xA1 0x45 0x8A),
    sums!([0] 0x13 0x26 0x4C 0x98 0x37 0x6E 0xDC 0xBF),
];

static TABLES_16: [[u16; 256]; 8] = [
    sums!([0] 0x1021 0x2042 0x4084 0x8108 0x1231 0x2462 0x48C4 0x9188),
    sums!([0] 0x3331 0x6662 0xCCC4 0x89A9 0x0373 0x06E6 0x0DCC 0x1B98),
    sums!([0] 0x3730 0x6E60 0xDCC0 0xA9A1 0x4363 0x86C6 0x1DAD 0x3B5A),
    sums!([0] 0x76B4 0xED68 0xCAF1 0x85C3 0x1BA7 0x374E 0x6E9C 0xDD38),
    sums!([0] 0xAA51 0x4483 0x8906 0x022D 0x045A 0x08B4 0x1168 0x22D0),
    sums!([0] 0x45A0 0x8B40 0x06A1 0x0D42 0x1A84 0x3508 0x6A10 0xD420),
    sums!([0] 0xB861 0x60E3 0xC1C6 0x93AD 0x377B 0x6EF6 0xDDEC 0xABF9),
    sums!([0] 0x47D3 0x8FA6 0x0F6D 0x1EDA 0x3DB4 0x7B68 0xF6D0 0xFD81),
];

// Polynomial 07 from FF.
pub struct Crc8;

impl Parameters for Crc8 {
    type Word = u8;

    const WIDTH: usize = 8;

    const START: u16 = 0xFF;

    ghost WIDTH = { 8 };

    ghost POLYNOMIAL = { 0x07 };

    ghost START = { 0xFF };

    ghost number = { crc8 };

    ghost ran = { refl };

    ghost wide = { Prim.search rules };

    ghost odd = { refl };

    ghost small = { lit< tt };

    ghost begun = { lit< tt };

    fn entry(byte: u8, behind: usize) -> u16 {
        TABLES_8[behind][usize::from(byte)]
    }

    fn word(register: u16) -> u8 {
        register as u8
    }
}

// Polynomial 1021 from FFFF.
pub struct Crc16;

impl Parameters for Crc16 {
    type Word = u16;

    const WIDTH: usize = 16;

    const START: u16 = 0xFFFF;

    ghost WIDTH = { 16 };

    ghost POLYNOMIAL = { 0x1021 };

    ghost START = { 0xFFFF };

    ghost number = { crc16 };

    ghost ran = { refl };

    ghost wide = { Prim.search rules };

    ghost odd = { refl };

    ghost small = { lit< tt };

    ghost begun = { lit< tt };

    fn entry(byte: u8, behind: usize) -> u16 {
        TABLES_16[behind][usize::from(byte)]
    }

    fn word(register: u16) -> u16 {
        register
    }
}
