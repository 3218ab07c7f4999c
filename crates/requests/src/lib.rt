// What the lines of a script ask for.
#![tactic(auto)]

mod calls;
mod cells;
mod label;
mod limits;
mod lines;
mod reading;
mod times;
mod units;

pub use label::Label;
pub use lines::{Cannot, Form, Kind, Lack, Line, Stop, UnitCall, UnitLine, Wanted};
pub use reading::parse;
pub use times::Times;
