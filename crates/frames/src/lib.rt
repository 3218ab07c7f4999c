// Frames: their fields, packing and reading, and what damage does to them, for every kind of check.
#![tactic(auto)]

mod bits;
mod damage;
mod fields;
mod laws;
mod layout;
mod making;
mod packing;
mod reading;
mod refusal;

pub use bits::known_bytes;
pub use damage::change;
pub use fields::{Address, AddressWidth, Fields, Heard, OutOfRange, Payload, Pid, Refusal};
pub use laws::{damage_shows, read_back, worked_cases};
pub use packing::pack;
pub use reading::read;
