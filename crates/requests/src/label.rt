ghost use Rattle.std.specs.Prelude.{◌≡◌, ◌<◌, ◌≤◌, MatchResult};

use frames::OutOfRange;

// What names a unit: 0 to 7.
#[derive(Clone, Copy, Debug, PartialEq, Eq)]
pub struct Label {
    pub place: u8,
    ghost near: { place < 8 },
}

impl TryFrom<u64> for Label {
    type Error = OutOfRange;

    ghost try_from_gives = { λ n r. MatchResult r (λ l. l.place ≡ n) (λ _. 8 ≤ n) };

    fn try_from(n: u64) -> Result<Label, OutOfRange> {
        match n {
            0..=7 => Ok(Label { place: n as u8 }),
            _ => Err(OutOfRange),
        }
    }
}
