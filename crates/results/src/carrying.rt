// Lines carried out.
ghost use Rattle.std.specs.Prelude.{◌≡◌, IfOk};
ghost use Rattle.frames.specs.Calls.{width_of, packet_of, Packed, Reads};
ghost use Rattle.requests.specs.Lines.{asked, make, Gives};
ghost use Rattle.desk.specs.Making.{IfSettled};
ghost use Rattle.desk.specs.Desks.{kind_of};
ghost use Rattle.results.specs.declared.carrying.Answer.TheVariants.{Field};
ghost use Rattle.results.specs.Outcomes.{check_width, check_meaning, outcome_of, CheckHeard, of_profile, asks_profile, pack_outcome, read_outcome, field_outcome, carried, units_after_request, Kept, IfUnsettled};

use crate::field::FieldBytes;
use checks::{Crc8, Crc16};
use desk::{Frame, UnitResult, Units};
use frames::{AddressWidth, Fields, Heard, pack, read};
use requests::{Cannot, Kind, Line, Stop};
use std::alloc::Global;

// What carrying out a line gives.
#[derive(Drop)]
pub enum Answer {
    Done,
    // a frame that was packed
    Frame(Frame),
    // what a reader finds, if it finds a packet
    Read(Result<Option<Heard>, frames::Refusal>),
    // what a profile has for a register, if it has anything
    Field(Result<Option<FieldBytes>, commands::Refusal>),
    Unit(UnitResult),
}

// The first bits of a frame, for a reader of addresses of that width. It prints what the reader finds, field by field.
#[derive(Clone, Copy, Debug, PartialEq, Eq)]
pub struct Reading<'a> {
    pub kind: Kind,
    pub frame: &'a [u8],
    pub count: usize,
    pub width: AddressWidth,
}

// This and the next are alike: a script names the check while it runs, so a match chooses the type of the check, and no closure can take a type.
fn pack_as(kind: Kind, fields: &Fields, frame: &mut [u8]) -> Result<usize, frames::Refusal>
    ensures { Packed (check_width kind) (check_meaning kind) (packet_of fields.now) frame.old result frame.new }
{
    match kind {
        Kind::Crc8 => pack::<Crc8>(fields, frame),
        Kind::Crc16 => pack::<Crc16>(fields, frame),
    }
}

impl Reading<'_> {
    // What the reader finds, if it finds a packet.
    pub(crate) fn heard(&self) -> Result<Option<Heard>, frames::Refusal>
        ensures { Reads (check_width self.now.kind) (check_meaning self.now.kind) (width_of self.now.width) self.now.frame.now self.now.count result }
    {
        match self.kind {
            Kind::Crc8 => read::<Crc8>(self.frame, self.count, self.width),
            Kind::Crc16 => read::<Crc16>(self.frame, self.count, self.width),
        }
    }
}

// The buffer has room for the longest frame, so packing is not refused.
fn packed(kind: Kind, fields: &Fields) -> Answer
    ensures { outcome_of result ≡ pack_outcome kind (packet_of fields.now) }
{
    let mut buffer = [0; 42];
    let bits = pack_as(kind, fields, &mut buffer).unwrap();
    Answer::Frame(Frame { bits, buffer })
}

// What a profile has for a register. A field has at most five bytes, so all of it is kept.
fn field(profile: &[u8], register: u8) -> Result<Option<FieldBytes>, commands::Refusal>
    ensures { outcome_of (Field result) ≡ field_outcome register profile.now }
{
    Ok(profile::field(profile, register)?.map(FieldBytes::new))
}

// Apart from `carry_out`, so that what stays as it was follows from one promise and not once for each line.
fn done_with(units: &mut Units, heap: Global, line: &Line) -> Result<Answer, Stop>
    ensures answer { Gives outcome_of result (carried units.old (asked line.now)) }
    ensures units { IfSettled result (units.new ≡ units_after_request units.old (asked line.now)) }
    ensures memory { IfUnsettled result (asked line.now ≡ make) }
    ensures heard { IfOk result (λ a. CheckHeard (kind_of units.old) a) }
    ensures profile { IfOk result (λ a. of_profile a ≡ asks_profile (asked line.now)) }
{
    match line {
        Line::Kind(kind) => {
            *units = Units::new(*kind);
            Ok(Answer::Done)
        }
        Line::Pack(fields) => Ok(packed(units.kind(), fields)),
        Line::Read { width, bits, bytes } => {
            let reading = Reading {
                kind: units.kind(),
                frame: bytes,
                count: usize::from(*bits),
                width: *width,
            };
            Ok(Answer::Read(reading.heard()))
        }
        Line::Field { register, profile } => Ok(Answer::Field(field(profile, *register))),
        Line::Unit { label, line } => {
            let unit = label.place;
            let result = units
                .carry_out(*label, line)
                .map_err(|lack| Cannot::Unit { unit, lack });
            Ok(Answer::Unit(result?))
        }
        Line::Call { unit, call } => {
            let unit = *unit;
            let result = units
                .call(unit, call)
                .map_err(|lack| Cannot::Unit { unit, lack });
            Ok(Answer::Unit(result?))
        }
        Line::Make => Ok(Answer::Unit(units.make(heap)?)),
        Line::Carry {
            fate,
            start,
            pattern,
        } => Ok(Answer::Unit(units.carry(*fate, *start, *pattern)?)),
    }
}

// Carries out a line on the units and the cell, with the check in force; or says why it cannot be carried out. Only a line that makes
// a cell needs memory.
pub fn carry_out(units: &mut Units, heap: Global, line: &Line) -> Result<Answer, Stop>
    ensures answer { Gives outcome_of result (carried units.old (asked line.now)) }
    ensures units { IfSettled result (units.new ≡ units_after_request units.old (asked line.now)) }
    ensures memory { IfUnsettled result (asked line.now ≡ make) }
    ensures heard { IfOk result (λ a. CheckHeard (kind_of units.old) a) }
    ensures profile { IfOk result (λ a. of_profile a ≡ asks_profile (asked line.now)) }
    ensures kept { IfSettled result (Kept (carried units.old (asked line.now)) units.old units.new) }
{
    done_with(units, heap, line)
}
