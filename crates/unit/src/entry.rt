// What the queues of a unit hold.
ghost use Rattle.std.specs.Prelude.{◌≤◌};

use frames::{Payload, Pid};
use registers::Pipe;

// A payload that is not empty: 1 to 32 bytes.
#[derive(Clone, Copy)]
pub struct Data {
    pub payload: Payload,
    ghost some: { 1 ≤ payload.len },
}

// A payload to be sent, with its packet identity.
#[derive(Clone, Copy)]
pub struct Outgoing {
    pub pid: Pid,
    pub data: Data,
}

// A payload that was taken, with the pipe on which it came.
#[derive(Clone, Copy)]
pub struct Received {
    pub pipe: Pipe,
    pub data: Data,
}
