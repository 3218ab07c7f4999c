// The boxed unit.
#![tactic(auto)]

mod boxing;
mod commanding;
mod entries;
mod entry;
mod hearing;
mod laws;
mod memory;
mod refusing;
mod remembering;
mod settings;
mod state;
mod ticking;

pub use entry::{Data, Outgoing, Received};
pub use laws::unit_laws;
pub use memory::{Memories, Memory};
pub use state::{Boxed, State};
