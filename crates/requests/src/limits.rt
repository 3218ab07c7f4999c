// What the lines have in common: two words and no more, and words that are numbers.
ghost use Rattle.std.specs.Prelude.{◌≡◌, Ok};
ghost use Rattle.words.specs.Split.{texts};
ghost use Rattle.words.specs.Numbers.{decimal_of};
ghost use Rattle.requests.specs.declared.lines.Cannot.TheVariants.{Word};
ghost use Rattle.requests.specs.Lines.{at_least, at_most, word_at, bit_of, bit_count, Means, Makes};

use crate::lines::{Cannot, Form, Wanted};
use words::decimal;

// The word at a place, counted from 1, is not what was wanted.
pub(crate) fn unfit(word: usize, wanted: Wanted) -> Cannot
    ensures { result ≡ Word word wanted }
{
    Cannot::Word { word, wanted }
}

// The second word of a line that has two.
pub(crate) fn second_of_two<'a>(words: &[&'a [u8]], form: Form) -> Result<&'a [u8], Cannot>
    ensures { Means (λ w. w.now) result (at_least 2 form (texts words.now) (at_most 2 form (texts words.now) (Ok (word_at (texts words.now) 1)))) }
{
    match words {
        [] | [_] => Err(Cannot::TooFew(form)),
        [_, word] => Ok(word),
        _ => Err(Cannot::TooMany(form)),
    }
}

// What make has for the decimal number that a word is.
pub(crate) fn number<T, F: FnOnce(u64) -> Option<T>>(
    word: &[u8],
    place: usize,
    wanted: Wanted,
    make: F,
) -> Result<T, Cannot>
    requires { F.IsAlwaysCallable make }
    ensures { Makes (F.post make) (Word place wanted) (decimal_of word.now) result }
{
    decimal(word).and_then(make).ok_or(unfit(place, wanted))
}

// 0 or 1.
pub(crate) fn bit_of(word: &[u8], place: usize, wanted: Wanted) -> Result<bool, Cannot>
    ensures { result ≡ bit_of place wanted word.now }
{
    number(word, place, wanted, |n| match n {
        0 => Some(false),
        1 => Some(true),
        _ => None,
    })
}

// How many bits, the third word.
pub(crate) fn bit_count(word: &[u8]) -> Result<u16, Cannot>
    ensures { result ≡ bit_count word.now }
{
    number(word, 3, Wanted::BitCount, |n| u16::try_from(n).ok())
}
