// The modes of a boxed unit, its flags and its counters: what CE, ticks, acknowledgements and flushes do to them.
#![tactic(auto)]

mod laws;
mod parts;
mod running;

pub use laws::gives_up_in_time;
pub use parts::{Core, Counts, Mode, Retry, Role};
