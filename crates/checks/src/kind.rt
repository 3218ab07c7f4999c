// A kind of check, as the layers above see it.
ghost use Rattle.std.specs.Prelude.{◌≡◌, ℕ, ◌^◌, ◌<◌, Bool, ◌⊎◌, List, take};
ghost use Rattle.checks.specs.Bits.{bits};
ghost use Rattle.checks.specs.Burst.{Burst};

// A word that a check answers: a number of at most 16 bits. A trait of our own and no `Into<u16>`, whose ghost member is
// a relation: `Check` needs the one number that a word is.
pub trait Word: Copy {
    ghost value: { Self → ℕ };

    fn number(self) -> u16
        ensures { result ≡ value self };
}

impl Word for u8 {
    ghost value = { λ x. x };

    fn number(self) -> u16 {
        u16::from(self)
    }
}

impl Word for u16 {
    ghost value = { λ x. x };

    fn number(self) -> u16 {
        self
    }
}

// A kind of check. Whatever keeps these three laws will do for frames, units and cells.
pub trait Check {
    type Word: Word;

    // how many bits the check has, 8 or 16
    const W: usize;

    // the same number, as a clause names it
    ghost W: { ℕ };

    // the one number that the check of a bit string is
    ghost meaning: { List Bool → ℕ };

    // The check of the first n bits, most significant bit first; of all bits if there are fewer.
    fn of(bytes: &[u8], n: usize) -> Self::Word
        ensures { Self.Word.Word.value result ≡ meaning (take n (bits bytes.now)) };

    ghost wide: { (W ≡ 8) ⊎ (W ≡ 16) };

    ghost below: { (s : List Bool) → meaning s < 2 ^ W };

    ghost burst: { Burst W meaning };
}

// The check of the first n bits as a plain number.
pub fn number_of<C: Check>(bytes: &[u8], n: usize) -> u16
    ensures value { result ≡ C.meaning (take n (bits bytes.now)) }
    ensures below { result < 2 ^ C.W }
{
    C::of(bytes, n).number()
}
