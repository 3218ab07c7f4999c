#![tactic(auto)]

mod queue;

ghost use Rattle.std.specs.Prelude.{◌≡◌, ◌≤◌, [], length, ◌==◌};
ghost use Rattle.std.specs.Option.{option_map};
ghost use Rattle.queue.specs.Entries.{entries, first, push_answer, pushed, popped};
ghost use Rattle.queue.specs.Order.{JoinsLast, LeavesFirst, FirstInFirstOut};

pub use queue::Queue;

impl<T> Queue<T> {
    // An empty queue. Whatever is called on it from then on, entries leave in the order in which they came.
    #[tactic(auto, using(crate::proofs::Fifo::fifo))]
    pub fn new() -> Self
        ensures empty { result ≡ Queue.Empty }
        ensures order { FirstInFirstOut result }
    {
        Queue::Empty
    }

    // How many entries stand, at most three.
    pub fn len(&self) -> usize
        ensures counts { result ≡ length (entries self.now) }
        ensures bound { result ≤ 3 }
    {
        match self {
            Queue::Empty => 0,
            Queue::One { .. } => 1,
            Queue::Two { .. } => 2,
            Queue::Three { .. } => 3,
        }
    }

    // Whether no entry stands.
    pub fn is_empty(&self) -> bool
        ensures { result ≡ (length (entries self.now) == 0) }
    {
        matches!(self, Queue::Empty)
    }

    // Whether three entries stand, so that a further one is refused.
    pub fn is_full(&self) -> bool
        ensures { result ≡ (length (entries self.now) == 3) }
    {
        matches!(self, Queue::Three { .. })
    }

    // The oldest entry, lent.
    pub fn oldest(&self) -> Option<&T>
        ensures { option_map (λ x. x.now) result ≡ first (entries self.now) }
    {
        match self {
            Queue::Empty => None,
            Queue::One { oldest } | Queue::Two { oldest, .. } | Queue::Three { oldest, .. } => {
                Some(oldest)
            }
        }
    }
}

impl<T: Drop> Queue<T> {
    // Adds `value` as the newest entry; a full queue hands it back and is unchanged.
    pub fn push(&mut self, value: T) -> Result<(), T>
        ensures answer { result ≡ push_answer self.old value }
        ensures after { self.new ≡ pushed self.old value }
        ensures law { JoinsLast self.old value result self.new }
    {
        // a queue is most often empty, and then nothing has to be moved
        if self.is_empty() {
            *self = Queue::One { oldest: value };
            return Ok(());
        }
        *self = match std::mem::replace(self, Queue::Empty) {
            Queue::One { oldest } => Queue::Two {
                oldest,
                middle: value,
            },
            Queue::Two { oldest, middle } => Queue::Three {
                oldest,
                middle,
                newest: value,
            },
            full => {
                *self = full;
                return Err(value);
            }
        };
        Ok(())
    }

    // Takes the oldest entry out.
    pub fn pop(&mut self) -> Option<T>
        ensures answer { result ≡ first (entries self.old) }
        ensures after { self.new ≡ popped self.old }
        ensures law { LeavesFirst self.old result self.new }
    {
        match std::mem::replace(self, Queue::Empty) {
            Queue::Empty => None,
            Queue::One { oldest } => Some(oldest),
            Queue::Two { oldest, middle } => {
                *self = Queue::One { oldest: middle };
                Some(oldest)
            }
            Queue::Three {
                oldest,
                middle,
                newest,
            } => {
                *self = Queue::Two {
                    oldest: middle,
                    middle: newest,
                };
                Some(oldest)
            }
        }
    }

    // Lets every entry go.
    pub fn clear(&mut self)
        ensures { self.new ≡ Queue.Empty }
    {
        *self = Queue::Empty;
    }
}
