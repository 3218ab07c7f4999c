// A script read line by line, its results written out.
ghost use Rattle.std.specs.Prelude.{◌≡◌, ℕ, List, ◌++◌, OnOk, OnErr, IfErr};
ghost use Rattle.std.specs.Io.KnownBytes.{Appends};
ghost use Rattle.script.specs.declared.feeding.Halt.TheVariants.{Memory};
ghost use Rattle.script.specs.Feeding.{AreLines, Takes, Stops};

use crate::running::Console;
use std::alloc::{AllocError, Global};
use std::io;
use std::io::{BufRead, BufReader, ErrorKind, Read, Write};

// Why a script is not read to its end. No Display: what is printed names the script, which is not known here.
#[derive(Drop)]
pub enum Halt {
    Input(io::Error),
    Output(io::Error),
    Memory,
}

impl From<AllocError> for Halt {
    ghost from_gives = { λ _ r. r ≡ Memory };

    fn from(_e: AllocError) -> Halt {
        Halt::Memory
    }
}

// Writes all of a text. `write_all` says nothing of the writer after an `Err`: this leaves a front of the text there.
fn write_text<W: Write>(out: &mut W, text: &[u8]) -> io::Result<()>
    ensures ok { OnOk result (Appends (W.contents out.old) (W.contents out.new) text.now) }
    ensures err { OnErr result ((front : List ℕ) × (rest : List ℕ) × (text.now ≡ front ++ rest)
        × Appends (W.contents out.old) (W.contents out.new) front) }
{
    let mut rest = text;
    for _ in 0..u64::MAX {
        if rest.is_empty() {
            return Ok(());
        }
        match out.write(rest) {
            Ok(0) => return Err(ErrorKind::WriteZero.into()),
            Ok(n) => rest = &rest[n..],
            Err(e) => {
                if e.kind() != ErrorKind::Interrupted {
                    return Err(e);
                }
            }
        }
    }
    Err(ErrorKind::TimedOut.into())
}

fn feed_lines<R: BufRead, W: Write>(
    console: &mut Console,
    heap: Global,
    input: &mut R,
    out: &mut W,
) -> Result<(), Halt>
    ensures all { OnOk result ((ls : List (List ℕ)) × AreLines (R.remaining input.old) ls
        × Takes ls console.old console.new (W.contents out.old) (W.contents out.new)) }
    ensures stopped { IfErr result (λ halt. Stops halt (R.remaining input.old)
        console.old console.new (W.contents out.old) (W.contents out.new)) }
{
    let mut line = Vec::new(heap);
    let mut text = String::new(heap);
    // Each loop is proved to end, so this one counts; no script has that many lines.
    for _ in 0..u64::MAX {
        line.clear();
        text.clear();
        match input.read_until(b'\n', &mut line) {
            Ok(0) => return Ok(()),
            Ok(_) => {}
            Err(e) => return Err(Halt::Input(e)),
        }
        console.print(heap, &line, &mut text)?;
        if let Err(e) = write_text(out, text.as_bytes()) {
            return Err(Halt::Output(e));
        }
    }
    Err(Halt::Input(io::Error::other("too many lines")))
}

// Takes each line of an input, and writes what it gives. A line is kept only while it is taken.
pub fn feed<R: Read, W: Write>(
    console: &mut Console,
    heap: Global,
    input: R,
    out: &mut W,
) -> Result<(), Halt>
where
    R: Drop,
    // Every line was taken, once and in order, and what they print was added to the output.
    ensures all { OnOk result ((ls : List (List ℕ)) × AreLines (R.remaining input) ls
        × Takes ls console.old console.new (W.contents out.old) (W.contents out.new)) }
    // How far it came, where it ends early.
    ensures stopped { IfErr result (λ halt. Stops halt (R.remaining input)
        console.old console.new (W.contents out.old) (W.contents out.new)) }
{
    let mut input = BufReader::new(heap, input).map_err(|_| Halt::Memory)?;
    feed_lines(console, heap, &mut input, out)
}
