// From the bench into the box.
ghost use Rattle.std.specs.Prelude.{◌≡◌};
ghost use Rattle.commands.specs.Status.{irq_of, LowWhen};
ghost use Rattle.unit.specs.Boxing.{boxed, no_memories};

use crate::memory::Memories;
use crate::state::{Boxed, State};
use bench::Bench;
use checks::Check;
use commands::{Flags, irq_low};
use frames::Pid;
use modes::{Core, Counts, Mode};
use queue::Queue;
use registers::Register;
use std::marker::PhantomData;

impl Memories {
    // Six pipes that took nothing yet.
    pub(crate) fn new() -> Memories
        ensures { result ≡ no_memories }
    {
        Memories { at: [None; 6] }
    }
}

impl<C: Check> Boxed<C> {
    // Boxes a bench unit, which uses it up. A unit with a fault can be boxed, but refuses every call from then on.
    pub fn new(bench: Bench) -> Boxed<C>
        ensures { result.state ≡ boxed C.Check.W bench.registers }
    {
        let fault = bench.fault::<C>();
        let registers = bench.registers;
        let config = registers.byte(Register::Config);
        Boxed {
            state: State {
                registers,
                fault,
                core: Core {
                    ce: false,
                    mode: Mode::Shutdown,
                    config,
                    flags: Flags::none(),
                    counts: Counts { again: 0, lost: 0 },
                },
                pid: Pid::Zero,
                tx: Queue::new(),
                rx: Queue::new(),
                memories: Memories::new(),
            },
            kind: PhantomData,
        }
    }

    // Whether the IRQ pin is low.
    pub fn irq_is_low(&self) -> bool
        ensures value { result ≡ irq_of self.now.state.core.flags self.now.state.core.config }
        ensures law { LowWhen self.now.state.core.flags self.now.state.core.config result }
    {
        self.state.irq_is_low()
    }
}

impl State {
    // Whether the IRQ pin is low. It can always be observed, also of a unit that was boxed with a fault.
    pub fn irq_is_low(&self) -> bool
        ensures value { result ≡ irq_of self.now.core.flags self.now.core.config }
        ensures law { LowWhen self.now.core.flags self.now.core.config result }
    {
        irq_low(self.core.flags, self.core.config)
    }
}
