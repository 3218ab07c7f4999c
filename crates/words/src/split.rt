// A line, cut into words.
ghost use Rattle.std.specs.Prelude.{◌≡◌, ◌<◌, ◌≤◌, [], ◌++◌, length, IfOk, slice_index_or};
ghost use Rattle.words.specs.Split.{blank, plain, ended, texts, words_of, Cut};

use std::alloc::{AllocError, Global};

// is_ascii_whitespace has the form feed too, which belongs to a word here.
fn is_blank(c: u8) -> bool
    ensures { result ≡ blank c }
{
    matches!(c, b' ' | b'\t' | b'\r' | b'\n')
}

// A byte of a word.
fn is_plain(c: u8) -> bool
    ensures { result ≡ plain c }
{
    c != b'#' && !is_blank(c)
}

fn behind_blanks(line: &[u8]) -> &[u8]
    ensures same { words_of result.now ≡ words_of line.now }
    ensures within { length result.now ≤ length line.now }
{
    let start = line
        .iter()
        .position(|c| !is_blank(*c))
        .unwrap_or(line.len());
    &line[start..]
}

// What stands before the first blank or '#', and what is left behind it: behind a '#' nothing.
fn parted(line: &[u8]) -> (&[u8], &[u8])
    ensures words { words_of line.now ≡ ended result.0.now ++ words_of result.1.now }
    ensures less { 0 < length line.now → length result.1.now < length line.now }
{
    match line.iter().position(|c| !is_plain(*c)) {
        Some(end) if line[end] == b'#' => (&line[..end], b""),
        Some(end) => (&line[..end], &line[end + 1..]),
        None => (line, b""),
    }
}

// The words of a line: what stands between blanks, as far as a '#'. They borrow the line.
pub fn words<'a>(heap: Global, line: &'a [u8]) -> Result<Vec<&'a [u8]>, AllocError>
    ensures value { IfOk result (λ v. texts v.items ≡ words_of line.now) }
    ensures cut { IfOk result (λ v. Cut line.now (texts v.items)) }
{
    let mut out = Vec::new(heap);
    let mut left = line;
    while !left.is_empty() {
        let (word, rest) = parted(left);
        // Blanks in a row are passed by at once, not as an empty part each.
        if word.is_empty() {
            left = behind_blanks(rest);
        } else {
            out.push(word)?;
            left = rest;
        }
    }
    Ok(out)
}

// The word at a place, counted from 0; past the last word an empty one, which no line has, so that it stands for none.
pub fn word<'a>(words: &[&'a [u8]], at: usize) -> &'a [u8]
    ensures { result.now ≡ slice_index_or (texts words.now) at [] }
{
    words.get(at).copied().unwrap_or(b"")
}
