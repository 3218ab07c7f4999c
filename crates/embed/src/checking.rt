// Checks.
ghost use Rattle.std.specs.Prelude.{◌≡◌, take};
ghost use Rattle.checks.specs.Bits.{bits as bits_of};
ghost use Rattle.checks.specs.Crc.{crc8, crc16};

use checks::{Check, Crc8, Crc16};

// The check of 8 bits of the first bits of a byte string, of all if there are fewer.
#[unsafe(no_mangle)]
pub extern "C" fn sinkapricot_crc8(bytes: &[u8], bits: usize) -> u8
    ensures { result ≡ crc8 (take bits (bits_of bytes.now)) }
{
    Crc8::of(bytes, bits)
}

// The check of 16 bits.
#[unsafe(no_mangle)]
pub extern "C" fn sinkapricot_crc16(bytes: &[u8], bits: usize) -> u16
    ensures { result ≡ crc16 (take bits (bits_of bytes.now)) }
{
    Crc16::of(bytes, bits)
}
