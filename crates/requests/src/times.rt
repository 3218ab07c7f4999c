ghost use Rattle.std.specs.Prelude.{◌≡◌, ◌<◌, ◌≤◌, MatchResult};

use frames::OutOfRange;

// How many ticks a line asks for: 1 to 65535.
#[derive(Clone, Copy, Debug, PartialEq, Eq)]
pub struct Times {
    pub count: u16,
    ghost some: { 1 ≤ count },
}

impl Times {
    pub const ONE: Times = Times { count: 1 };
}

impl TryFrom<u64> for Times {
    type Error = OutOfRange;

    ghost try_from_gives = { λ n r. MatchResult r (λ t. t.count ≡ n) (λ _. 1 ≤ n → n ≤ 65535 → ⊥) };

    fn try_from(n: u64) -> Result<Times, OutOfRange> {
        match n {
            1..=65535 => Ok(Times { count: n as u16 }),
            _ => Err(OutOfRange),
        }
    }
}
