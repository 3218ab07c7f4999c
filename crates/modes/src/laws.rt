ghost use Rattle.modes.specs.Budget.{GivesUpInTime};

// With nothing heard, MAX_RT stands after at most 13 + (ARC + 1) × 25 × (ARD + 1) ticks of a transaction.
#[tactic(auto, using(crate::proofs::Trying::gives_up_in_time))]
pub fn gives_up_in_time()
    ensures { GivesUpInTime }
{}
