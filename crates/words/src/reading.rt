// Numbers and bytes, read from words.
ghost use Rattle.std.specs.Prelude.{◌≡◌, ℕ, ◌<◌, reverse, drop, IfOk, Some, vec_items};
ghost use Rattle.std.specs.Option.{option_map};
ghost use Rattle.words.specs.declared.reading.Unread.TheVariants.{Memory};
ghost use Rattle.words.specs.Numbers.{hex_digit, byte_of, together_of, one_more, decimal_of};
ghost use Rattle.words.specs.Split.{texts};
ghost use Rattle.words.specs.Bytes.{bytes_from, ReadsBytes};

use std::alloc::{AllocError, AllocFailed, Global};

// char::to_digit gives a u32, to be cast back: no plainer.
fn digit_value(c: u8) -> Option<u8>
    ensures value { result ≡ hex_digit c }
    ensures below { (d : ℕ) → result ≡ Some d → d < 16 }
{
    match c {
        b'0'..=b'9' => Some(c - b'0'),
        b'A'..=b'F' => Some(c - b'A' + 10),
        b'a'..=b'f' => Some(c - b'a' + 10),
        _ => None,
    }
}

// A byte: two hexadecimal digits in either case.
pub fn byte(word: &[u8]) -> Option<u8>
    ensures { result ≡ byte_of word.now }
{
    let &[high, low] = word else {
        return None;
    };
    Some(16 * digit_value(high)? + digit_value(low)?)
}

// Bytes written together, two hexadecimal digits for each.
pub fn together(heap: Global, word: &[u8]) -> Result<Option<Vec<u8>>, AllocError>
    ensures { IfOk result (λ o. option_map vec_items o ≡ together_of word.now) }
{
    let mut out = Vec::new(heap);
    for digits in word.chunks(2) {
        // no `?`: the errors that this function passes on are the allocator's
        let Some(b) = byte(digits) else {
            return Ok(None);
        };
        out.push(b)?;
    }
    Ok(Some(out))
}

// Why words are not read as bytes: one of them, counted from 1, is no byte, or there is no memory.
// Plain data, which clauses compare: the error of the allocator is not kept, since it says no more than Memory does.
#[derive(Clone, Copy, Debug, PartialEq, Eq)]
pub enum Unread {
    NoByte { word: usize },
    Memory,
}

impl From<AllocError> for Unread {
    ghost from_gives = { λ _ r. r ≡ Memory };

    fn from(_e: AllocError) -> Unread {
        Unread::Memory
    }
}

impl<T: Drop> From<AllocFailed<T>> for Unread {
    ghost from_gives = { λ _ r. r ≡ Memory };

    fn from(_e: AllocFailed<T>) -> Unread {
        Unread::Memory
    }
}

// The bytes that the words from a place on are, one for each word.
pub fn bytes(heap: Global, words: &[&[u8]], from: usize) -> Result<Vec<u8>, Unread>
    ensures { ReadsBytes result (bytes_from from (drop from (texts words.now))) }
{
    words
        .iter()
        .enumerate()
        .skip(from)
        .map(|(at, word)| byte(word).ok_or(Unread::NoByte { word: at + 1 }))
        .try_collect(heap)
}

fn one_more(n: u64, c: u8) -> Option<u64>
    ensures { result ≡ one_more n c }
{
    match c {
        b'0'..=b'9' => n.checked_mul(10)?.checked_add(u64::from(c - b'0')),
        _ => None,
    }
}

// A decimal number below 2^64. The parse of std would take a sign too.
pub fn decimal(word: &[u8]) -> Option<u64>
    ensures { result ≡ decimal_of word.now }
{
    if word.is_empty() {
        return None;
    }
    word.iter().try_fold(0, |n, c| one_more(n, *c))
}

// Bytes in the opposite order: what is written high byte first is often kept low byte first.
pub fn reversed(heap: Global, bytes: &[u8]) -> Result<Vec<u8>, AllocError>
    ensures { IfOk result (λ v. v.items ≡ reverse bytes.now) }
{
    bytes.iter().rev().copied().collect(heap)
}
