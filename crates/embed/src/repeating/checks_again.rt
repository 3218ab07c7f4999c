ghost use Rattle.std.specs.Prelude.{◌≡◌};
ghost use Rattle.std.specs.Fn.{iterate};
ghost use Rattle.embed.specs.Repeating.{checked8, before_checks8, checked16, before_checks16};

use crate::checking::{sinkapricot_crc8, sinkapricot_crc16};
use crate::repeating::work::{Work, turned};

// A turn of either: the check of 321 bits, as many as the check of a frame with 32 bytes of payload covers. The first byte
// becomes the low byte of the check. At first each byte is 5A. The answer is the last check.
#[derive(Drop)]
struct Checking8 {
    bytes: [u8; 42],
    check: u8,
}

impl Work for Checking8 {
    ghost step = { checked8 };

    #[inline(never)]
    fn turn(&mut self) {
        self.check = sinkapricot_crc8(&self.bytes, 321);
        self.bytes[0] = self.check;
    }
}

#[unsafe(no_mangle)]
pub extern "C" fn sinkapricot_repeat_crc8(turns: u64) -> u8
    ensures { result ≡ (iterate checked8 turns before_checks8).check }
{
    let work = Checking8 {
        bytes: [0x5A; 42],
        check: 0,
    };
    turned(work, turns).check
}

#[derive(Drop)]
struct Checking16 {
    bytes: [u8; 42],
    check: u16,
}

impl Work for Checking16 {
    ghost step = { checked16 };

    #[inline(never)]
    fn turn(&mut self) {
        self.check = sinkapricot_crc16(&self.bytes, 321);
        self.bytes[0] = (self.check % 256) as u8;
    }
}

#[unsafe(no_mangle)]
pub extern "C" fn sinkapricot_repeat_crc16(turns: u64) -> u16
    ensures { result ≡ (iterate checked16 turns before_checks16).check }
{
    let work = Checking16 {
        bytes: [0x5A; 42],
        check: 0,
    };
    turned(work, turns).check
}
