// What a carry asks for: the fates by their numbers, and the patterns that are allowed.
ghost use Rattle.std.specs.Prelude.{◌≡◌, ◌-◌, ◌%◌, ◌^◌, Some, ◌==◌};
ghost use Rattle.cell.specs.Air.{fate_of, pattern_allowed, fate_allowed};

use crate::air::Fate;

// Whether a pattern has bits among its first n alone.
fn is_within(pattern: u16, n: usize) -> bool
    ensures { result ≡ (pattern % 2 ^ (16 - n) == 0) }
{
    let left = 16usize.saturating_sub(n);
    u32::from(pattern) % (1 << left) == 0
}

// Whether a pattern is allowed for a check of `width` bits on a frame of `count`: it has a bit, only among its first `width`, and none
// at or past the frame's end. The bits that the frame has from the start bit on are counted, so no start bit is too large.
#[tactic(auto, using(crate::proofs::Within::within))]
fn is_pattern_allowed(width: usize, count: usize, start: usize, pattern: u16) -> bool
    ensures { result ≡ pattern_allowed width count start pattern }
{
    pattern != 0 && is_within(pattern, width) && is_within(pattern, count.saturating_sub(start))
}

impl Fate {
    // The fate of a number. Start bit and pattern matter for 3 alone.
    pub(crate) fn of_number(number: u8, start: usize, pattern: u16) -> Option<Fate>
        ensures { result ≡ fate_of number start pattern }
    {
        match number {
            0 => Some(Fate::Lost),
            1 => Some(Fate::Heard),
            2 => Some(Fate::HeardTwice),
            3 => Some(Fate::Changed { start, pattern }),
            _ => None,
        }
    }

    // Whether a frame of `count` bits with a check of `width` can have this fate.
    pub(crate) fn is_allowed(self, width: usize, count: usize) -> bool
        ensures { result ≡ fate_allowed width count (Some self) }
    {
        match self {
            Fate::Lost | Fate::Heard | Fate::HeardTwice => true,
            Fate::Changed { start, pattern } => is_pattern_allowed(width, count, start, pattern),
        }
    }
}
