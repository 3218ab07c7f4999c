ghost use Rattle.std.specs.Prelude.{◌≡◌, map, Some};
ghost use Rattle.law.specs.Lists.{All};
ghost use Rattle.law.specs.Runs.{led, outcomes};
ghost use Rattle.law.specs.Law.{OfBytes};
ghost use Rattle.delivery.specs.Entries.{calls_of, written};
ghost use Rattle.delivery.specs.Replay.{CarriesTheLaw};

use crate::entry::Entry;
use cell::Cell;
use checks::Check;
use law::every_run_is_lawful;

// Makes the calls on the cell, in their order, and writes beside each what it answered. A refused call is one of them, and the calls
// after it are made all the same. The clause `bytes` lets these calls be the past of later ones.
pub fn replay<C: Check>(cell: &mut Cell<C>, entries: &mut [Entry<'_>])
    ensures calls { calls_of entries.new ≡ calls_of entries.old }
    ensures outcomes { written entries.new ≡ map Some (outcomes C.Check.W C.meaning cell.old.inside (calls_of entries.old)) }
    ensures state { cell.new.inside ≡ led C.Check.W C.meaning cell.old.inside (calls_of entries.old) }
    ensures bytes { All OfBytes (calls_of entries.old) }
    ensures law { CarriesTheLaw C.Check.W C.meaning cell.old.inside (calls_of entries.old) cell.new.inside (written entries.new) }
{
    // does nothing: what it ensures is the law, of which the clause `law` speaks
    every_run_is_lawful::<C>();
    for entry in entries.iter_mut() {
        entry.replay(cell);
    }
}
