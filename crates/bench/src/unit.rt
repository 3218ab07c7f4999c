use registers::Registers;

// A unit on the bench, before it is boxed: its registers, and no radio that runs. Boxing uses it up.
#[derive(Drop)]
pub struct Bench {
    pub registers: Registers,
}
