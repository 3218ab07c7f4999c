use registers::Register;

// Why a unit refuses a call; after a refusal nothing has changed.
#[derive(Clone, Copy, Debug, PartialEq, Eq)]
pub enum Refusal {
    // the host sent no byte
    NoCommand,
    // no such command or register
    Unknown,
    // a command that a unit on the bench, or of this role, does not take
    NotForUnit,
    // a wrong number of data bytes
    DataLength,
    // no received payload to read
    NothingReceived,
    // the reply is longer than its buffer
    ReplyRoom,
    // the register is read only, or fixed by boxing
    ReadOnly,
    // the register cannot be written while the unit is tuning, waiting or receiving
    Busy,
    // the value is not one that the register takes
    NotAllowed(Register),
    // three payloads wait already
    QueueFull,
    // the map or the length of a profile is wrong
    Profile,
    // the check of a bench unit found a fault in this register
    Fault(Register),
    // the frame's buffer is too short, or its bits go beyond its bytes; `frames` has a refusal of that name, number and text as
    // well, since neither of the two crates stands on the other
    FrameBytes,
}
