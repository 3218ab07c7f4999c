ghost use Rattle.unit.specs.Laws.{RefusedChangesNothing, OwnMemoryOnly, LeavesOnlySo};

use checks::Check;

// Of the calls of a boxed unit: one that is refused changes nothing; a frame changes at most the memory of its own pipe;
// a payload leaves the TX queue only by an acknowledgement, which removes exactly the oldest, or by FLUSH_TX.
pub fn unit_laws<C: Check>()
    ensures refused { RefusedChangesNothing C.Check.W C.meaning }
    ensures memory { OwnMemoryOnly }
    ensures queue { LeavesOnlySo C.Check.W C.meaning }
{}
