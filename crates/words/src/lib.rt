// Lines cut into words, numbers and bytes read from words, and their texts.
#![tactic(auto)]

mod reading;
mod split;
mod writing;

pub use reading::{Unread, byte, bytes, decimal, reversed, together};
pub use split::{word, words};
pub use writing::{Apart, Joined, Reversed, bytes_read_back, decimal_reads_back, hex};
