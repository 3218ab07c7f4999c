// Fields from bytes and numbers, and back.
ghost use Rattle.std.specs.Prelude.{◌≡◌, ℕ, ◌+◌, ◌%◌, ◌<◌, ◌≤◌, [], length, take, if◌then◌else◌, Some, None, MatchOption, nat_le};
ghost use Rattle.std.specs.Str.{bytes_eq};
ghost use Rattle.std.specs.Cmp.{on_equiv, on_per, partial_equiv_from_equiv};
ghost use Rattle.std.specs.Cmp.Lexicographic.{nat_list_eq_equiv};
ghost use Rattle.frames.specs.Packet.{Valid};
ghost use Rattle.frames.specs.Calls.{width_of, pid_number, next_pid, packet_of, address_bytes, payload_bytes, payload_of, WidthOrNone, PidOrNone};

use crate::bits::known_bytes;
use crate::fields::{Address, AddressWidth, Fields, MOST, OutOfRange, Payload, Pid};

impl TryFrom<usize> for AddressWidth {
    type Error = OutOfRange;

    ghost try_from_gives = { WidthOrNone };

    fn try_from(bytes: usize) -> Result<Self, OutOfRange> {
        match bytes {
            3 => Ok(AddressWidth::Three),
            4 => Ok(AddressWidth::Four),
            5 => Ok(AddressWidth::Five),
            _ => Err(OutOfRange),
        }
    }
}

impl AddressWidth {
    // A named method and no From: three facts of it are of use, each under its name.
    pub fn bytes(self) -> usize
        ensures value { result ≡ width_of self }
        ensures low { 3 ≤ result }
        ensures high { result ≤ 5 }
    {
        self as usize
    }
}

// Bytes with zeros behind them. Each caller names their number, for which nothing is called.
#[inline(always)]
fn front(given: &[u8], width: usize) -> [u8; 5]
    requires few { width ≤ 5 }
    requires enough { width ≤ length given.now }
    ensures { take width result ≡ take width given.now }
{
    let mut held = [0; 5];
    held[0..width].copy_from_slice(&given[0..width]);
    held
}

impl Address {
    // An address of these bytes, low byte first; there are 3 to 5. No TryFrom: an error would say no more than None does.
    pub fn new(given: &[u8]) -> Option<Address>
        ensures { MatchOption result ((3 ≤ length given.now → length given.now ≤ 5 → ⊥)) (λ a. address_bytes a ≡ given.now) }
    {
        match given.len() {
            3 => Some(Address::of_low_bytes(front(given, 3), AddressWidth::Three)),
            4 => Some(Address::of_low_bytes(front(given, 4), AddressWidth::Four)),
            5 => Some(Address::of_low_bytes(front(given, 5), AddressWidth::Five)),
            _ => None,
        }
    }

    // The address of the low bytes of a register, as many as the width says.
    pub fn of_low_bytes(held: [u8; 5], wide: AddressWidth) -> Address
        ensures { address_bytes result ≡ take (width_of wide) held }
    {
        Address { held, wide }
    }

    // Its bytes, low byte first.
    pub fn bytes(&self) -> &[u8]
        ensures { result.now ≡ address_bytes self.now }
    {
        &self.held[0..self.wide.bytes()]
    }

    pub fn width(&self) -> AddressWidth
        ensures { width_of result ≡ length (address_bytes self.now) }
    {
        known_bytes(&self.held[0..self.wide.bytes()]);
        self.wide
    }
}

// Two addresses are equal by their bytes in use, whatever stands behind them.
impl PartialEq for Address {
    ghost eq = { λ a b. bytes_eq (address_bytes a) (address_bytes b) };

    ghost laws = { on_per address_bytes (partial_equiv_from_equiv nat_list_eq_equiv) };

    // Written out: no loop and no call for so few bytes, since a receiver asks this of each of its pipes.
    fn eq(&self, other: &Address) -> bool {
        let [a0, a1, a2, a3, a4] = self.held;
        let [b0, b1, b2, b3, b4] = other.held;
        other.wide == self.wide
            && (a0 == b0 && a1 == b1 && a2 == b2)
            && (self.wide == AddressWidth::Three || a3 == b3)
            && (self.wide != AddressWidth::Five || a4 == b4)
    }
}

impl Eq for Address {
    ghost laws = { on_equiv address_bytes nat_list_eq_equiv };
}

impl TryFrom<u8> for Pid {
    type Error = OutOfRange;

    ghost try_from_gives = { PidOrNone };

    fn try_from(number: u8) -> Result<Self, OutOfRange> {
        match number {
            0 => Ok(Pid::Zero),
            1 => Ok(Pid::One),
            2 => Ok(Pid::Two),
            3 => Ok(Pid::Three),
            _ => Err(OutOfRange),
        }
    }
}

impl Pid {
    // A named method and no From: both facts of it are of use, each under its name.
    pub fn number(self) -> u8
        ensures value { result ≡ pid_number self }
        ensures below { result < 4 }
    {
        self as u8
    }

    // The packet identity of the next payload: one more, modulo 4.
    pub fn next(self) -> Pid
        ensures value { result ≡ next_pid self }
        ensures law { pid_number result ≡ (pid_number self + 1) % 4 }
    {
        match self {
            Pid::Zero => Pid::One,
            Pid::One => Pid::Two,
            Pid::Two => Pid::Three,
            Pid::Three => Pid::Zero,
        }
    }
}

impl Payload {
    // A payload of these bytes; there are at most 32. No TryFrom: an error would say no more than None does. The limit is
    // tested and not left to `get_mut(0..len)?`, which would hide it.
    pub fn new(given: &[u8]) -> Option<Payload>
        ensures bytes { MatchOption result (32 < length given.now) (λ p. payload_bytes p ≡ given.now) }
        ensures whole { result ≡ (if nat_le (length given.now) 32 then Some (payload_of given.now) else None) }
    {
        let len = given.len();
        if len > MOST {
            return None;
        }
        let mut held = [0; MOST];
        held[0..len].copy_from_slice(given);
        Some(Payload {
            held,
            len: len as u8,
        })
    }

    // A payload of no bytes: that of an acknowledgement.
    pub fn empty() -> Payload
        ensures { payload_bytes result ≡ [] }
    {
        Payload {
            held: [0; MOST],
            len: 0,
        }
    }

    pub fn bytes(&self) -> &[u8]
        ensures value { result.now ≡ payload_bytes self.now }
        ensures short { length result.now ≤ 32 }
    {
        &self.held[0..self.len as usize]
    }
}

// Nothing is done: the contract says what the types of the fields keep.
pub(crate) fn known_fields(fields: &Fields)
    ensures { Valid (width_of fields.now.address.wide) (packet_of fields.now) }
{
    // what these calls ensure or are given is all the proof
    let _pid = fields.pid.number();
    known_bytes(&fields.address.held[0..fields.address.wide.bytes()]);
    known_bytes(&fields.payload.held[0..fields.payload.len as usize]);
}
