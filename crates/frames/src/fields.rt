// The fields of a frame, each a type of its own.
ghost use Rattle.std.specs.Prelude.{◌≤◌};

// How many bytes an address has on the air.
#[derive(Clone, Copy, Debug, PartialEq, Eq)]
pub enum AddressWidth {
    Three = 3,
    Four = 4,
    Five = 5,
}

// An address of 3 to 5 bytes, low byte first, at the front of `held`: fixed memory, since the engine allocates nothing. No
// ArrayVec of the library, which allocates nothing either: it is not Copy.
#[derive(Clone, Copy, Debug)]
pub struct Address {
    pub(crate) held: [u8; 5],
    pub(crate) wide: AddressWidth,
}

// A packet identity: it tells a new payload from one that is sent again.
#[derive(Clone, Copy, Debug, PartialEq, Eq)]
pub enum Pid {
    Zero = 0,
    One = 1,
    Two = 2,
    Three = 3,
}

// A number that is none of the values of a type: no address width's, no packet identity's, or, in the console, no unit's
// label. It has no Display: the callers say in their own words what was out of range.
#[derive(Clone, Copy, Debug, PartialEq, Eq)]
pub struct OutOfRange;

// How many bytes a payload has at most; clauses say the number.
pub(crate) const MOST: usize = 32;

// 0 to 32 bytes, at the front of `held`: fixed memory and no ArrayVec, as for an address. The length is a byte, from which the
// compiler sees that no place in a frame wraps.
#[derive(Clone, Copy, Debug)]
pub struct Payload {
    pub(crate) held: [u8; MOST],
    pub(crate) len: u8,
    ghost fits: { len ≤ 32 },
}

// What a frame carries; preamble, length and check follow from it.
#[derive(Clone, Copy, Debug)]
pub struct Fields {
    pub address: Address,
    pub pid: Pid,
    pub no_ack: bool,
    pub payload: Payload,
}

// A frame that was read: its fields and its check, which is the one of those fields.
#[derive(Clone, Copy, Debug)]
pub struct Heard {
    pub fields: Fields,
    pub check: u16,
}

// Why packing or reading is refused.
#[derive(Clone, Copy, Debug, PartialEq, Eq)]
pub enum Refusal {
    // a frame buffer under 42 bytes, or bits beyond the frame's bytes
    FrameBytes = 18,
}
