ghost use Rattle.law.specs.Weakened.{RunsOfTheLaw, SaidByTheLaw, BlindReads, ForgettingReads, KeepingNoneAnswers, BlindAnswers, CountingFrom1GivesUp};

// Each statement of the law is kept by a cell and broken by a weakened one, in the same run.
pub fn weakened_cells_break_the_law()
    ensures runs { RunsOfTheLaw }
    ensures said { SaidByTheLaw }
    ensures writes { BlindReads }
    ensures order { ForgettingReads }
    ensures taken { KeepingNoneAnswers }
    ensures mistaken { BlindAnswers }
    ensures budget { CountingFrom1GivesUp }
{}
