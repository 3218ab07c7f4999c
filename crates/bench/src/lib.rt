// The bench unit: registers at reset, register commands, profiles, and the check before boxing.
#![tactic(auto)]

mod checking;
mod commanding;
mod live;
mod loading;
mod readout;
mod unit;

pub use live::Live;
pub use readout::reply_register;
pub use unit::Bench;
