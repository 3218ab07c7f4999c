// A frame explained field by field, a line for each field; each line begins with blanks.
ghost use Rattle.std.specs.Prelude.{◌≡◌, reverse, false, slice_index_or, length, ◌++◌, codes, Some};
ghost use Rattle.std.specs.Fmt.{WritesOnOk};
ghost use Rattle.checks.specs.Bits.{bits};
ghost use Rattle.frames.specs.Calls.{width_of, packet_of};
ghost use Rattle.results.specs.Rows.{preamble_row, no_ack_row, check_row, packet_rows, rows_found};

use crate::carrying::Reading;
use checks::bit_at;
use frames::Heard;
use requests::Kind;
use std::fmt;
use words::{Apart, Joined, Reversed};

// Whether an address begins with bit 1. It is sent high byte first, and kept low byte first.
fn begins_with_one(low_first: &[u8]) -> bool
    ensures { result ≡ slice_index_or (bits (reverse low_first.now)) 0 false }
{
    low_first.last().is_some_and(|high| bit_at(&[*high], 0))
}

// One of two fixed rows, as is the next: a bool has no type of its own that could be displayed so.
fn preamble(first: bool) -> &'static str
    ensures { result.now ≡ preamble_row first }
{
    if first {
        "     preamble  AA (the address begins with bit 1; 55 where it begins with 0)\n"
    } else {
        "     preamble  55 (the address begins with bit 0; AA where it begins with 1)\n"
    }
}

fn no_ack(set: bool) -> &'static str
    ensures { result.now ≡ no_ack_row set }
{
    if set {
        "     NO_ACK    1 (1 bit: no acknowledgement is wanted)\n"
    } else {
        "     NO_ACK    0 (1 bit: an acknowledgement is wanted)\n"
    }
}

// The check of a frame.
#[derive(Clone, Copy)]
struct Check {
    kind: Kind,
    check: u16,
}

impl fmt::Display for Check {
    ghost output = { λ x. Some (check_row x.kind x.check) };

    fn fmt<W: fmt::Write>(&self, f: &mut fmt::Formatter<W>) -> fmt::Result {
        // byte by byte: std proves what `{:02X}` writes of a byte, but not what `{:04X}` writes of two
        let [high, low] = self.check.to_be_bytes();
        match self.kind {
            Kind::Crc8 => writeln!(
                f,
                "     check     {} (8 bits, polynomial 07 from FF, over address, control and payload)",
                Joined(&[low])
            ),
            Kind::Crc16 => writeln!(
                f,
                "     check     {} (16 bits, polynomial 1021 from FFFF, over address, control and payload)",
                Joined(&[high, low])
            ),
        }
    }
}

// What was heard, field by field.
#[derive(Clone, Copy)]
struct PacketRows<'a> {
    kind: Kind,
    heard: &'a Heard,
}

impl fmt::Display for PacketRows<'_> {
    ghost output = { λ x. Some (packet_rows x.kind (packet_of x.heard.now.fields) x.heard.now.check) };

    fn fmt<W: fmt::Write>(&self, f: &mut fmt::Formatter<W>) -> fmt::Result {
        let fields = &self.heard.fields;
        let address = fields.address.bytes();
        let payload = fields.payload.bytes();
        let length = payload.len();
        let pid = fields.pid.number();
        let check = Check {
            kind: self.kind,
            check: self.heard.check,
        };
        f.write_str(preamble(begins_with_one(address)))?;
        writeln!(
            f,
            "     address   {} ({} bytes, high byte first)",
            Reversed(address),
            address.len()
        )?;
        writeln!(f, "     length    {length} (6 bits: {length:06b})")?;
        writeln!(f, "     PID       {pid} (2 bits: {pid:02b})")?;
        f.write_str(no_ack(fields.no_ack))?;
        writeln!(f, "     payload  {}", Apart(payload))?;
        writeln!(f, "{check}     spare     7 bits 0 (to fill the last byte)")
    }
}

// Nothing is printed where there is no frame.
impl fmt::Display for Reading<'_> {
    ghost output = { λ x. Some (rows_found x.kind (width_of x.width) x.count x.frame.now) };

    fn fmt<W: fmt::Write>(&self, f: &mut fmt::Formatter<W>) -> fmt::Result {
        match self.heard() {
            Ok(Some(heard)) => {
                let kind = self.kind;
                let heard = &heard;
                write!(f, "{}", PacketRows { kind, heard })
            }
            _ => Ok(()),
        }
    }
}
