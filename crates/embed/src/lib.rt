// The engine for C: a few calls on numbers and byte slices. A slice comes as a pointer, which is not null, and a length.
#![tactic(auto)]

mod checking;
mod packing;
mod reading;
mod repeating;
mod running;
