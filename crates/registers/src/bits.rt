ghost use Rattle.std.specs.Prelude.{◌≡◌};
ghost use Rattle.registers.specs.Bits.{bit};

// Whether the bit at `place` stands in `byte`; bit 0 is the lowest. The lowest crates share nothing, so `checks` has such a test of
// its own.
pub fn stands(byte: u8, place: u8) -> bool
    ensures { result ≡ bit place byte }
{
    place < 8 && byte >> place & 1 == 1
}
