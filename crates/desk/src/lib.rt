// The units under their labels, and what lines do to them.
#![tactic(auto)]

mod answer;
mod boxed;
mod calling;
mod cell_calls;
mod counts;
mod making;
mod slot;
mod units;

pub use answer::{Frame, Refusal, UnitAnswer, UnitResult};
pub use counts::Counts;
pub use slot::{AnyUnit, Desk, Units, Watched};
