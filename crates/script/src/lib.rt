// The console as a library: it takes a script line by line, carries it out and prints the results.
#![tactic(auto)]

mod feeding;
mod running;
mod summary;

pub use feeding::{Halt, feed};
pub use running::Console;
pub use summary::Summary;
