// The frame on the air is carried.
ghost use Rattle.std.specs.Prelude.{◌≡◌};
ghost use Rattle.cell.specs.Calls.{carried_so, carry_result, carried};

use crate::air::{Fate, Frame};
use crate::parts::{Cell, Inside};
use crate::refusal::{Cause, Refusal};
use checks::Check;

impl Inside {
    // The frame that was on the air has this fate.
    fn carry_so<C: Check>(&mut self, fate: Fate, frame: &Frame)
        ensures { self.new ≡ carried_so C.Check.W C.meaning fate self.old frame.now }
    {
        match fate {
            Fate::Lost => self.air = None,
            Fate::Heard => self.hear_once::<C>(frame),
            Fate::HeardTwice => {
                self.hear_once::<C>(frame);
                self.hear_once::<C>(frame);
            }
            Fate::Changed { start, pattern } => self.hear_once::<C>(&frame.changed(start, pattern)),
        }
    }
}

impl<C: Check> Cell<C> {
    // The frame on the air is carried: the air is then empty, or holds the answer. Any start bit will do; start bit and pattern
    // matter for fate 3 alone (docs/CELL.md).
    pub fn carry(&mut self, fate: u8, start: usize, pattern: u16) -> Result<(), Refusal>
        ensures answer { result ≡ carry_result C.Check.W C.meaning self.old.inside fate start pattern }
        ensures state { self.new.inside ≡ carried C.Check.W C.meaning self.old.inside fate start pattern }
    {
        let Some(frame) = self.inside.air else {
            return Err(Cause::AirEmpty.at(0));
        };
        let Some(fate) = Fate::of_number(fate, start, pattern) else {
            return Err(Cause::FateNotAllowed.at(0));
        };
        if !fate.is_allowed(C::W, frame.count) {
            return Err(Cause::FateNotAllowed.at(0));
        }
        self.inside.carry_so::<C>(fate, &frame);
        Ok(())
    }
}
