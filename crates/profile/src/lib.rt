// Vehicle profiles: a map of the registers that are named, and a field for each.
#![tactic(auto)]

mod fields;
mod map;
mod reading;

pub use fields::{field, number_of_fields};
pub use reading::Profile;
