#![tactic(auto)]

mod command;
mod decoding;
mod flags;
mod refusal;
mod refusals;
mod replying;
mod status;

pub use command::Command;
pub use decoding::decode;
pub use flags::Flags;
pub use refusal::Refusal;
pub use replying::reply;
pub use status::{fifo_status, irq_low, observe_tx, status_byte};
