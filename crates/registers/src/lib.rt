#![tactic(auto)]

mod address;
mod bits;
mod file;
mod held;
mod pipe;
mod pipes;
mod readings;
mod register;
mod row;
mod table;

pub use bits::stands;
pub use held::Registers;
pub use pipe::{NoSuchPipe, Pipe, Rate};
pub use register::{NoSuchRegister, Register};
