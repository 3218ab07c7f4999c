// The console: the units, the check in force, and the lines so far.
ghost use Rattle.std.specs.Prelude.{◌≡◌, ◌++◌, Ok, Err, codes, Some, OnOk, OnErr, IfOk, string_bytes};
ghost use Rattle.words.specs.Split.{texts, words_of};
ghost use Rattle.requests.specs.Lines.{asked, line_of};
ghost use Rattle.results.specs.Outcomes.{outcome_of};
ghost use Rattle.results.specs.Texts.{cannot_text};
ghost use Rattle.script.specs.Console.{SameTally, explained, answer_text, request_text, line_text, after_request, after_line, started, printed, after};

use crate::summary::Summary;
use answers::ProfileRows;
use desk::Units;
use requests::{Cannot, Kind, Line, Stop, UnitLine, parse};
use results::{Answer, Reading, Unable, carry_out};
use std::alloc::{AllocError, Global};
use std::fmt;
use words::words;

// What a reader finds in the frame that was packed, or that was to be read; what a profile says.
#[derive(Clone, Copy)]
struct Explained<'a> {
    kind: Kind,
    line: &'a Line,
    answer: &'a Answer,
}

impl fmt::Display for Explained<'_> {
    ghost output = { λ x. Some (explained x.kind (asked x.line.now) (outcome_of x.answer.now)) };

    fn fmt<W: fmt::Write>(&self, f: &mut fmt::Formatter<W>) -> fmt::Result {
        let kind = self.kind;
        match (self.line, self.answer) {
            (Line::Pack(fields), Answer::Frame(frame)) => {
                let reading = Reading {
                    kind,
                    frame: &frame.buffer,
                    count: frame.bits,
                    width: fields.address.width(),
                };
                write!(f, "{reading}")
            }
            (Line::Read { width, bits, bytes }, _) => {
                let reading = Reading {
                    kind,
                    frame: bytes,
                    count: usize::from(*bits),
                    width: *width,
                };
                write!(f, "{reading}")
            }
            (
                Line::Field { profile, .. }
                | Line::Unit {
                    line: UnitLine::Load { profile },
                    ..
                },
                _,
            ) => write!(f, "{}", ProfileRows(profile)),
            _ => Ok(()),
        }
    }
}

// Most results, with what is explained below them, have no more bytes: room for them at once, so that a text does not grow bit by bit.
const USUAL_RESULT: usize = 512;

#[derive(Drop)]
pub struct Console {
    units: Units,
    // the three counts go as far as their type
    lines: u64,
    carried: u64,
    unable: u64,
}

impl Console {
    // A console with the 16-bit check in force and no units, before the first line.
    pub fn new() -> Console
        ensures { result ≡ started }
    {
        Console {
            units: Units::new(Kind::Crc16),
            lines: 0,
            carried: 0,
            unable: 0,
        }
    }

    // How many lines were carried out, and how many could not be.
    pub fn tally(&self) -> (u64, u64)
        ensures { result ≡ (self.now.carried, self.now.unable) }
    {
        (self.carried, self.unable)
    }

    // What the calls on the cell came to, for people, if there is a cell.
    pub fn summary(&self) -> Summary<'_>
        ensures { result.0.now ≡ self.now.units }
    {
        Summary(&self.units)
    }

    fn refuse(&mut self, cannot: Cannot, out: &mut String) -> Result<(), AllocError>
        ensures state { OnOk result (self.new ≡ after_line self.old (Err cannot)) }
        ensures text { OnOk result (string_bytes out.new ≡ string_bytes out.old ++ (cannot_text cannot ++ codes "\n")) }
        ensures tally { OnErr result (SameTally self.new self.old) }
    {
        writeln!(out, "{}", Unable(cannot))?;
        self.unable = self.unable.saturating_add(1);
        Ok(())
    }

    fn carry(&mut self, heap: Global, line: &Line, out: &mut String) -> Result<(), AllocError>
        ensures state { OnOk result (self.new ≡ after_request self.old (asked line.now)) }
        ensures text { OnOk result (string_bytes out.new ≡ string_bytes out.old ++ (request_text self.old.units (asked line.now))) }
        ensures tally { OnErr result (SameTally self.new self.old) }
    {
        let kind = self.units.kind();
        match carry_out(&mut self.units, heap, line) {
            Ok(answer) => {
                let answer = &answer;
                write!(out, "{answer}\n{}", Explained { kind, line, answer })?;
                // behind its text: a line whose result finds no memory is not counted
                self.carried = self.carried.saturating_add(1);
                Ok(())
            }
            Err(Stop::Cannot(cannot)) => self.refuse(cannot, out),
            // as in `answer`
            Err(Stop::Memory) => Err(AllocError),
        }
    }

    fn answer(&mut self, heap: Global, words: &[&[u8]], out: &mut String) -> Result<(), AllocError>
        ensures state { OnOk result (self.new ≡ after_line self.old (line_of (texts words.now))) }
        ensures text { OnOk result (string_bytes out.new ≡ string_bytes out.old ++ (line_text self.old.units (line_of (texts words.now)))) }
        ensures tally { OnErr result (SameTally self.new self.old) }
    {
        match parse(heap, words) {
            Ok(line) => self.carry(heap, &line, out),
            Err(Stop::Cannot(cannot)) => self.refuse(cannot, out),
            // no `?`: of the two reasons why a line goes no further only this one ends the run; `Stop` is plain data and carries no
            // `AllocError`, which says nothing more than its name
            Err(Stop::Memory) => Err(AllocError),
        }
    }

    // Carries out the next line, and adds its number and result to a text, which the caller can keep from line to line.
    pub(crate) fn print(
        &mut self,
        heap: Global,
        line: &[u8],
        text: &mut String,
    ) -> Result<(), AllocError>
        ensures state { OnOk result (self.new ≡ after self.old (words_of line.now)) }
        ensures text { OnOk result (string_bytes text.new ≡ string_bytes text.old ++ printed self.old (words_of line.now)) }
        ensures tally { OnErr result (SameTally self.new self.old) }
    {
        self.lines = self.lines.saturating_add(1);
        let words = words(heap, line)?;
        if words.is_empty() {
            return Ok(());
        }
        text.reserve(USUAL_RESULT)?;
        write!(text, "{}: ", self.lines)?;
        self.answer(heap, &words, text)
    }

    // Takes the next line of the script: carries it out, and adds its number and result to the output, which stays as it was where
    // memory runs out.
    pub fn take(&mut self, heap: Global, line: &[u8], out: &mut Vec<u8>) -> Result<(), AllocError>
        ensures state { OnOk result (self.new ≡ after self.old (words_of line.now)) }
        ensures text { OnOk result (out.new.items ≡ out.old.items ++ (printed self.old (words_of line.now))) }
        ensures kept { OnErr result (out.new.items ≡ out.old.items) }
        ensures tally { OnErr result (SameTally self.new self.old) }
    {
        let (carried, unable) = self.tally();
        let mut text = String::new(heap);
        self.print(heap, line, &mut text)?;
        let added = out.extend_from_slice(text.as_bytes());
        if added.is_err() {
            // nothing of it stands in the output, so it is not counted
            self.carried = carried;
            self.unable = unable;
        }
        added
    }
}
