// Reads scripts, from the files named or else from standard input, and prints the result of each line.
#![tactic(auto)]

use script::{Console, Halt, feed};
use std::fs::File;
use std::io::{BufWriter, Write};
use std::process::ExitCode;
use std::{env, io};

// What was told on standard error by then, so that it is not told once more.
#[derive(Drop)]
enum Told {
    // a script was not read to its end, or had lines that could not be carried out
    Script,
    // the output failed, so that nothing more can be written to it
    Output,
}

// Says on standard error why a script was not read to its end.
fn tell(rt: &HostRuntime, name: &str, halt: Halt) -> Told {
    let (place, told, e) = match halt {
        Halt::Input(e) => (name, Told::Script, e),
        Halt::Output(e) => ("standard output", Told::Output, e),
        Halt::Memory => (name, Told::Script, io::Error::other("out of memory")),
    };
    let _ = eprintln!(rt; "sinkapricot: {place}: {e}");
    told
}

fn feed_file<W: Write>(
    rt: &HostRuntime,
    console: &mut Console,
    name: &str,
    out: &mut W,
) -> Result<(), Halt> {
    let file = File::open(rt, name).map_err(Halt::Input)?;
    feed(console, rt.alloc(), file, out)
}

// Takes the lines of all scripts, one after another.
fn feed_all<W: Write>(rt: &HostRuntime, console: &mut Console, out: &mut W) -> Result<(), Told> {
    let args = env::args(rt);
    let args = args.map_err(|e| tell(rt, "the arguments (UTF-8)", Halt::Input(e)))?;
    let mut names = args.skip(1).peekable();
    if names.peek().is_none() {
        return feed(console, rt.alloc(), rt.stdin(), out).map_err(|halt| tell(
            rt,
            "standard input",
            halt,
        ));
    }
    for name in names {
        let name = name.as_str();
        feed_file(rt, console, name, out).map_err(|halt| tell(rt, name, halt))?;
    }
    Ok(())
}

fn close<W: Write>(console: &Console, out: &mut W) -> io::Result<()> {
    let (carried, unable) = console.tally();
    write!(out, "{}", console.summary())?;
    writeln!(
        out,
        "done: {carried} lines carried out, {unable} could not be"
    )?;
    out.flush()
}

fn run(rt: &HostRuntime) -> Result<(), Told> {
    let mut console = Console::new();
    let out = BufWriter::new(rt.alloc(), rt.stdout());
    let mut out = out.map_err(|_| tell(rt, "standard output", Halt::Memory))?;
    let fed = feed_all(rt, &mut console, &mut out);
    if !matches!(fed, Err(Told::Output)) {
        close(&console, &mut out).map_err(|e| tell(rt, "", Halt::Output(e)))?;
    }
    fed?;
    let (_, unable) = console.tally();
    if unable > 0 {
        let _ = eprintln!(rt; "sinkapricot: {unable} lines could not be carried out");
        return Err(Told::Script);
    }
    Ok(())
}

fn main(rt: HostRuntime) -> ExitCode {
    match run(&rt) {
        Ok(()) => ExitCode::SUCCESS,
        Err(_) => ExitCode::FAILURE,
    }
}
