// Frames put on the air.
ghost use Rattle.std.specs.Prelude.{◌≡◌, cond, None, Some, ◌==◌};
ghost use Rattle.cell.specs.declared.air.Frame.{Frame};

use crate::air::Frame;

// The bytes of the longest frame; clauses say the number.
pub(crate) const LONGEST_FRAME: usize = 42;

impl Frame {
    // What is on the air after a sending or an answer of that many bits: none are no frame.
    pub(crate) fn aired(from: u8, count: usize, bytes: [u8; LONGEST_FRAME]) -> Option<Frame>
        ensures { result ≡ cond (count == 0) None (Some (record { from = from; count = count; bytes = bytes })) }
    {
        if count == 0 {
            None
        } else {
            Some(Frame { from, count, bytes })
        }
    }
}
