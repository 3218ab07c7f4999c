// A refusal as a number and as a text.
ghost use Rattle.std.specs.Prelude.{◌≡◌, ℕ, Some};
ghost use Rattle.frames.specs.Calls.{refusal_number, refusal_reason};

use crate::fields::Refusal;
use std::error::Error;
use std::fmt;

impl Refusal {
    // The number under which a refusal is reported.
    pub fn number(self) -> u8
        ensures { result ≡ refusal_number self }
    {
        self as u8
    }
}

impl fmt::Display for Refusal {
    ghost output = { λ refusal. Some (refusal_reason refusal) };

    fn fmt<W: fmt::Write>(&self, f: &mut fmt::Formatter<W>) -> fmt::Result {
        f.write_str(match self {
            Refusal::FrameBytes => "bits beyond the frame's bytes",
        })
    }
}

impl Error for Refusal {}
