// Lines carried out, and the texts of their results.
#![tactic(auto)]

mod carrying;
mod field;
mod rows;
mod texts;

pub use carrying::{Answer, Reading, carry_out};
pub use field::FieldBytes;
pub use texts::Unable;
