ghost use Rattle.law.specs.Law.{EveryRunIsLawful};

use checks::Check;

// For every check that keeps the laws of a check, every newly made cell and every list of calls on it: reads are writes, in
// order; sent means taken; no giving up within the retry budget.
pub fn every_run_is_lawful<C: Check>()
    ensures { EveryRunIsLawful C.Check.W C.meaning }
{}
