// The memories of the pipes, read and written.
ghost use Rattle.std.specs.Prelude.{◌≡◌};
ghost use Rattle.unit.specs.Hearing.{recalled, same_memory, remembered};

use crate::memory::{Memories, Memory};
use registers::Pipe;

impl Memories {
    // Whether the pipe remembers just this.
    pub(crate) fn knows(&self, pipe: Pipe, memory: Memory) -> bool
        ensures { result ≡ same_memory (recalled self.now pipe) memory }
    {
        self.at[usize::from(pipe.index())] == Some(memory)
    }

    // The pipe remembers this; the others keep what they have.
    pub(crate) fn remember(&mut self, pipe: Pipe, memory: Memory)
        ensures { self.new ≡ remembered self.old pipe memory }
    {
        self.at[usize::from(pipe.index())] = Some(memory);
    }
}
