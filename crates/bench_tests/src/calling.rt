// Makes calls on a bench unit, and compares what comes back.
use crate::case::{Call, Kind, Start};
use crate::table::{READINGS, WRITTEN};
use bench::Bench;
use checks::{Crc8, Crc16};
use commands::Refusal;
use profile::{field, number_of_fields};
use registers::Register;

// STATUS of a bench unit, which every reply begins with.
const STATUS: u8 = 0x0E;

// What a byte of a buffer holds that no call has written.
const UNTOUCHED: u8 = 0xA5;

// A buffer in which no call has written yet.
pub(crate) const FRESH: [u8; 8] = [UNTOUCHED; 8];

// The unit before the call.
pub(crate) fn started(start: Start) -> Bench {
    match start {
        Start::Reset => Bench::new(),
        Start::Written => {
            let (unit, _) = Bench::new().load(&WRITTEN);
            unit
        }
    }
}

// The unit's answer to a command, with room for so many bytes of reply at the front of the buffer.
fn commanded(
    unit: &mut Bench,
    bytes: &[u8],
    buffer: &mut [u8],
    room: usize,
) -> Result<usize, Refusal> {
    let room = room.min(buffer.len());
    unit.command(bytes, &mut buffer[..room])
}

// Makes a call, and hands back the unit and the refusal, if there is one.
pub(crate) fn called(unit: Bench, call: Call, buffer: &mut [u8]) -> (Bench, Option<Refusal>) {
    let mut unit = unit;
    let refusal = match call {
        Call::Command(bytes, room) => commanded(&mut unit, bytes, buffer, room).err(),
        Call::Load(profile) => {
            let (loaded, given) = unit.load(profile);
            return (loaded, given.err());
        }
        Call::Count(profile) => number_of_fields(profile).err(),
        Call::Field(profile, register) => field(profile, register).err(),
        Call::Check(Kind::Crc8) => unit.check::<Crc8>().err(),
        Call::Check(Kind::Crc16) => unit.check::<Crc16>().err(),
    };
    (unit, refusal)
}

pub(crate) fn address_of(register: Option<Register>) -> Option<u8> {
    register.map(Register::address)
}

// Whether this refusal came, with this register.
pub(crate) fn is_refusal(given: Option<Refusal>, number: u8, register: Option<u8>) -> bool {
    given.is_some_and(|refusal| {
        refusal.number() == number && address_of(refusal.register()) == register
    })
}

// Whether a buffer holds a reply with this answer, and behind it what was there.
pub(crate) fn is_reply(buffer: &[u8], answer: &[u8]) -> bool {
    buffer
        .strip_prefix(&[STATUS])
        .and_then(|rest| rest.strip_prefix(answer))
        .is_some_and(|rest| rest.iter().all(|b| *b == UNTOUCHED))
}

// Whether the command is carried out, with a reply of STATUS alone.
pub(crate) fn serves(unit: &mut Bench, bytes: &[u8]) -> bool {
    let mut buffer = FRESH;
    unit.command(bytes, &mut buffer).ok() == Some(1) && is_reply(&buffer, &[])
}

// Whether the register at an address reads this value.
pub(crate) fn reads(unit: &mut Bench, address: u8, value: &[u8]) -> bool {
    let mut buffer = FRESH;
    unit.command(&[address], &mut buffer).is_ok() && is_reply(&buffer, value)
}

// Whether the register at an address reads as it does at the start.
pub(crate) fn keeps(unit: &mut Bench, start: Start, address: u8) -> bool {
    let Some(row) = READINGS.get(usize::from(address)) else {
        return false;
    };
    let wanted = match start {
        Start::Reset => row.at_reset,
        Start::Written => row.written,
    };
    let mut buffer = FRESH;
    unit.command(&[address], &mut buffer).ok() == Some(row.length) && buffer == wanted
}

pub(crate) fn keeps_all(unit: &mut Bench, start: Start) -> bool {
    Register::all()
        .into_iter()
        .all(|register| keeps(unit, start, register.address()))
}

// Whether one register reads this value, and all others as they do at the start.
pub(crate) fn keeps_others(unit: &mut Bench, start: Start, register: u8, value: &[u8]) -> bool {
    Register::all()
        .into_iter()
        .map(Register::address)
        .filter(|other| *other != register)
        .all(|other| keeps(unit, start, other))
        && reads(unit, register, value)
}
