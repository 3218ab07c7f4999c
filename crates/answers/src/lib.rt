// The texts of what units answer and lack, and of profiles.
#![tactic(auto)]

mod profiles;
mod texts;

pub use profiles::ProfileRows;
pub use texts::{CellRefused, Framed, Lacking, Refused, Said, front};
