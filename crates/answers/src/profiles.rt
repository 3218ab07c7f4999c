// A profile explained register by register, a line for each; each line begins with blanks.
ghost use Rattle.std.specs.Prelude.{◌≡◌, Some, length, drop};
ghost use Rattle.std.specs.Fmt.{WritesOnOk};
ghost use Rattle.answers.specs.Profiles.{blanks, register_row, profile_rows};

use profile::Profile;
use registers::Register;
use std::fmt;
use std::fmt::Display;
use words::Apart;

// As many blanks as fill the column of the names.
const BLANKS: &str = "           ";

// The blanks that a name leaves in its column.
fn rest_of_column(name: &str) -> &'static str
    ensures { result.now ≡ drop (length name.now) blanks }
{
    BLANKS.get(name.len()..).unwrap_or("")
}

// The line of a register. Part by part: of a line that each named register has `{:02X}` and `{:<11}` would be most of the cost.
fn write_row<W: fmt::Write>(
    f: &mut fmt::Formatter<W>,
    register: Register,
    bytes: &[u8],
) -> fmt::Result
    ensures { WritesOnOk W.write_str_gives f.old result (register_row register bytes.now) f.new }
{
    let name = register.name();
    f.write_str("    ")?;
    Apart(&[register.address()]).fmt(f)?;
    f.write_str(" ")?;
    f.write_str(name)?;
    f.write_str(rest_of_column(name))?;
    Apart(bytes).fmt(f)?;
    f.write_str("\n")
}

// A profile: a line for each register that it names, with its address, its name and its bytes. Nothing where map or length are wrong.
#[derive(Clone, Copy, Debug, PartialEq, Eq)]
pub struct ProfileRows<'a>(pub &'a [u8]);

impl fmt::Display for ProfileRows<'_> {
    ghost output = { λ x. Some (profile_rows x.0.now) };

    fn fmt<W: fmt::Write>(&self, f: &mut fmt::Formatter<W>) -> fmt::Result {
        let Ok(profile) = Profile::read(self.0) else {
            return Ok(());
        };
        for register in Register::all() {
            if let Some(bytes) = profile.field(register) {
                write_row(f, register, bytes)?;
            }
        }
        Ok(())
    }
}
