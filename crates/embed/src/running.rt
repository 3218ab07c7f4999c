// The console over a whole script.
ghost use Rattle.std.specs.Prelude.{◌≡◌, ◌≢◌, length, IfOk};
ghost use Rattle.embed.specs.Running.{results, front_written, no_memory};

use script::{Console, Halt, feed};
use std::alloc::Global;

// What a new console prints of the script's lines.
fn results(heap: Global, script: &[u8]) -> Result<Vec<u8>, Halt>
    ensures { IfOk result (λ text. text.items ≡ results script.now) }
{
    let mut console = Console::new();
    let mut text = Vec::new(heap);
    feed(&mut console, heap, script, &mut text)?;
    Ok(text)
}

fn write_front(text: &[u8], out: &mut [u8])
    ensures { out.new ≡ front_written text.now out.old }
{
    let count = text.len().min(out.len());
    out[0..count].copy_from_slice(&text[0..count]);
}

// Runs a script on a new console, and answers how many bytes its results have. As many of them as fit stand at the front of
// `out`; later bytes stay. Where there was no memory the answer is the greatest number, and `out` stays.
#[unsafe(no_mangle)]
pub extern "C" fn sinkapricot_run(heap: Global, script: &[u8], out: &mut [u8]) -> usize
    ensures ran { result ≢ no_memory → (result ≡ length (results script.now)) × (out.new ≡ front_written (results script.now) out.old) }
    ensures memory { result ≡ no_memory → out.new ≡ out.old }
{
    match results(heap, script) {
        Ok(text) => {
            write_front(&text, out);
            text.len()
        }
        Err(_) => usize::MAX,
    }
}
