// The cell: one receiver, one to six senders, and the air between them.
#![tactic(auto)]

mod air;
mod airing;
mod answering;
mod calling;
mod carrying;
mod fates;
mod hearing;
mod making;
mod parts;
mod refusal;
mod refusals;

pub use air::{Fate, Frame};
pub use making::Unmade;
pub use parts::{Cell, Inside, Places};
pub use refusal::{Cause, Layer, Refusal};
