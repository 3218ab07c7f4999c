// Bytes as results write them. Numbers are written as std prints them.
ghost use Rattle.std.specs.Prelude.{◌≡◌, ℕ, ◌<◌, true, ◌∷◌, reverse, Some, Ok};
ghost use Rattle.std.specs.Fmt.{WritesOnOk};
ghost use Rattle.words.specs.Numbers.{byte_of, together_of, decimal_of, digit_shown, byte_shown, bytes_shown, digits_shown, decimal_shown, all_behind_blanks};
ghost use Rattle.words.specs.Split.{words_of};
ghost use Rattle.words.specs.Bytes.{bytes_from};

use std::{fmt, str};

// Nothing is done but that the parameter is used: the contract says that bytes read back from their digits, one by one, apart and together.
pub fn bytes_read_back(bytes: &[u8])
    ensures each { (b : ℕ) → b < 256 → byte_of (byte_shown b) ≡ Some b }
    ensures apart { bytes_from 0 (words_of (bytes_shown bytes.now)) ≡ Ok bytes.now }
    ensures joined { together_of (digits_shown bytes.now) ≡ Some bytes.now }
{
    let _first = bytes.first();
}

// Nothing is done but that the parameter is used: the contract says that a number reads back from its decimal digits.
pub fn decimal_reads_back(n: u64)
    ensures { decimal_of (decimal_shown n) ≡ Some n }
{
    let _n = n;
}

fn digit(d: u8) -> u8
    requires { d < 16 }
    ensures { result ≡ digit_shown d }
{
    if d < 10 { b'0' + d } else { b'A' + (d - 10) }
}

// The two digits of a byte, in upper case. They read back as the byte.
pub fn hex(b: u8) -> [u8; 2]
    ensures shown { result ≡ byte_shown b }
    ensures reads { byte_of result ≡ Some b }
{
    [digit(b / 16), digit(b % 16)]
}

// Writes bytes that are a text, as digits are. `{:02X}` writes the same, by several times the instructions.
fn write_text<W: fmt::Write>(f: &mut fmt::Formatter<W>, bytes: &[u8]) -> fmt::Result
    ensures { WritesOnOk W.write_str_gives f.old result bytes.now f.new }
{
    let text = str::from_utf8(bytes).map_err(|_| fmt::Error)?;
    f.write_str(text)
}

// The bytes in the order of their numbers, each as a blank and two digits: what is most of what results print.
const OCTETS: &[&str; 256] = &[
    " 00", " 01", " 02", " 03", " 04", " 05", " 06", " 07", " 08", " 09", " 0A", " 0B", " 0C",
    " 0D", " 0E", " 0F", " 10", " 11", " 12", " 13", " 14", " 15", " 16", " 17", " 18", " 19",
    " 1A", " 1B", " 1C", " 1D", " 1E", " 1F", " 20", " 21", " 22", " 23", " 24", " 25", " 26",
    " 27", " 28", " 29", " 2A", " 2B", " 2C", " 2D", " 2E", " 2F", " 30", " 31", " 32", " 33",
    " 34", " 35", " 36", " 37", " 38", " 39", " 3A", " 3B", " 3C", " 3D", " 3E", " 3F", " 40",
    " 41", " 42", " 43", " 44", " 45", " 46", " 47", " 48", " 49", " 4A", " 4B", " 4C", " 4D",
    " 4E", " 4F", " 50", " 51", " 52", " 53", " 54", " 55", " 56", " 57", " 58", " 59", " 5A",
    " 5B", " 5C", " 5D", " 5E", " 5F", " 60", " 61", " 62", " 63", " 64", " 65", " 66", " 67",
    " 68", " 69", " 6A", " 6B", " 6C", " 6D", " 6E", " 6F", " 70", " 71", " 72", " 73", " 74",
    " 75", " 76", " 77", " 78", " 79", " 7A", " 7B", " 7C", " 7D", " 7E", " 7F", " 80", " 81",
    " 82", " 83", " 84", " 85", " 86", " 87", " 88", " 89", " 8A", " 8B", " 8C", " 8D", " 8E",
    " 8F", " 90", " 91", " 92", " 93", " 94", " 95", " 96", " 97", " 98", " 99", " 9A", " 9B",
    " 9C", " 9D", " 9E", " 9F", " A0", " A1", " A2", " A3", " A4", " A5", " A6", " A7", " A8",
    " A9", " AA", " AB", " AC", " AD", " AE", " AF", " B0", " B1", " B2", " B3", " B4", " B5",
    " B6", " B7", " B8", " B9", " BA", " BB", " BC", " BD", " BE", " BF", " C0", " C1", " C2",
    " C3", " C4", " C5", " C6", " C7", " C8", " C9", " CA", " CB", " CC", " CD", " CE", " CF",
    " D0", " D1", " D2", " D3", " D4", " D5", " D6", " D7", " D8", " D9", " DA", " DB", " DC",
    " DD", " DE", " DF", " E0", " E1", " E2", " E3", " E4", " E5", " E6", " E7", " E8", " E9",
    " EA", " EB", " EC", " ED", " EE", " EF", " F0", " F1", " F2", " F3", " F4", " F5", " F6",
    " F7", " F8", " F9", " FA", " FB", " FC", " FD", " FE", " FF",
];

// The text of a byte, from a table where each stands at its place.
fn text_at(texts: &[&'static str; 256], b: u8) -> &'static str
    requires { all_behind_blanks texts.now 0 ≡ true }
    ensures { result.now ≡ 32 ∷ byte_shown b }
{
    texts[usize::from(b)]
}

fn behind_blank(b: u8) -> &'static str
    ensures { result.now ≡ 32 ∷ byte_shown b }
{
    text_at(OCTETS, b)
}

// The three loops below stay apart: one function over any iterator of bytes would need more contract than it saves code.

// Bytes as separate words: a blank and two digits for each.
#[derive(Clone, Copy, Debug)]
pub struct Apart<'a>(pub &'a [u8]);

impl fmt::Display for Apart<'_> {
    ghost output = { λ x. Some (bytes_shown x.0.now) };

    fn fmt<W: fmt::Write>(&self, f: &mut fmt::Formatter<W>) -> fmt::Result {
        for &b in self.0 {
            f.write_str(behind_blank(b))?;
        }
        Ok(())
    }
}

// Bytes written together: two digits for each, with no blank.
#[derive(Clone, Copy, Debug)]
pub struct Joined<'a>(pub &'a [u8]);

impl fmt::Display for Joined<'_> {
    ghost output = { λ x. Some (digits_shown x.0.now) };

    fn fmt<W: fmt::Write>(&self, f: &mut fmt::Formatter<W>) -> fmt::Result {
        for &b in self.0 {
            write_text(f, &hex(b))?;
        }
        Ok(())
    }
}

// The same in the opposite order: an address is kept low byte first and written high byte first.
#[derive(Clone, Copy, Debug)]
pub struct Reversed<'a>(pub &'a [u8]);

impl fmt::Display for Reversed<'_> {
    ghost output = { λ x. Some (digits_shown (reverse x.0.now)) };

    fn fmt<W: fmt::Write>(&self, f: &mut fmt::Formatter<W>) -> fmt::Result {
        for &byte in self.0.iter().rev() {
            write_text(f, &hex(byte))?;
        }
        Ok(())
    }
}
