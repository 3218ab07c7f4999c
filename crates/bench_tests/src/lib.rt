// Calls on a bench unit against answers that an independent program reckoned.
#![tactic(auto)]

#[cfg(test)]
mod calling;
mod case;
mod table;
#[cfg(test)]
mod tests;

pub use case::{Call, Field, Kind, Profile, Reading, Refused, Setup, Start, Value, Wide};
pub use table::{
    FIRST_BYTES, PROFILES, READINGS, REFUSED, SETUPS, VALUES, WIDE_VALUES, WRITTEN, WRONG_PROFILES,
};
