// A queue of at most three entries, in named places. An enum of its lengths: no gap can stand between two entries, and an
// empty place needs no entry to fill it, as a place of an array or of a vector of fixed capacity does (an entry has no default).
#[derive(Drop)]
pub enum Queue<T> {
    Empty,
    One { oldest: T },
    Two { oldest: T, middle: T },
    Three { oldest: T, middle: T, newest: T },
}
