ghost use Rattle.std.specs.Prelude.{◌≡◌};
ghost use Rattle.std.specs.Fn.{iterate};

// Work that goes on from turn to turn.
pub(super) trait Work {
    ghost step: { Self → Self };

    fn turn(&mut self)
        ensures { self.new ≡ step self.old };
}

// A turn is never inlined into this loop: so none is left out.
pub(super) fn turned<W: Work>(mut work: W, turns: u64) -> W
    ensures { result ≡ iterate W.step turns work }
{
    for _ in 0..turns {
        work.turn();
    }
    work
}
