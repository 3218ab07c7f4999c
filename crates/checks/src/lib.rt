// What a check is, and the two kinds that are delivered.
#![tactic(auto)]

mod bits;
mod crc;
mod kind;

pub use bits::bit_at;
pub use crc::{Crc8, Crc16};
pub use kind::{Check, Word, number_of};
