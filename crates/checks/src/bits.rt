// Single bits of a byte string.
ghost use Rattle.std.specs.Prelude.{◌≡◌, ◌<◌, false, slice_index_or};
ghost use Rattle.checks.specs.Bits.{bit, bits};

// Bit k of a byte, 0 the least significant.
fn bit_of(b: u8, k: usize) -> bool
    requires { k < 8 }
    ensures { result ≡ bit b k }
{
    b >> k & 1 == 1
}

// Bit i of a byte string, 0 the first byte's most significant; past the end it reads as 0.
pub fn bit_at(bytes: &[u8], i: usize) -> bool
    ensures { result ≡ slice_index_or (bits bytes.now) i false }
{
    bytes
        .get(i / 8)
        .is_some_and(|byte| bit_of(*byte, 7 - i % 8))
}
