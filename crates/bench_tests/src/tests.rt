// Runs the tables; a failure is noted with its row.
use crate::calling::*;
use crate::case::{Field, Profile, Refused, Setup, Start, Value, Wide};
use crate::table::{FIRST_BYTES, PROFILES, REFUSED, SETUPS, VALUES, WIDE_VALUES, WRONG_PROFILES};
use bench::Bench;
use checks::{Check, Crc8, Crc16};
use profile::{field, number_of_fields};
use registers::Register;
use unit::Boxed;

// NOP, and a write of STATUS, change no register.
fn stays(start: Start) -> bool {
    let mut unit = started(start);
    keeps_all(&mut unit, start)
        && serves(&mut unit, &[0xFF])
        && serves(&mut unit, &[0x27, 0x70])
        && keeps_all(&mut unit, start)
}

#[test]
fn readings(rt: HostRuntime) {
    assert!(rt; stays(Start::Reset));
    assert!(rt; stays(Start::Written));
}

// Neither the buffer nor a register changes.
fn refuses(row: &Refused) -> bool {
    let mut buffer = FRESH;
    let (mut unit, given) = called(started(row.start), row.call, &mut buffer);
    is_refusal(given, row.number, row.register)
        && buffer == FRESH
        && keeps_all(&mut unit, row.start)
}

#[test]
fn refused(rt: HostRuntime) {
    for (i, row) in REFUSED.iter().enumerate() {
        assert!(rt; refuses(row), "{}", i);
    }
}

fn begins(first: u8, number: Option<u8>) -> bool {
    let mut unit = Bench::new();
    let given = unit.command(&[first], &mut FRESH).err();
    match number {
        Some(number) => is_refusal(given, number, None),
        None => given.is_none(),
    }
}

#[test]
fn first_bytes(rt: HostRuntime) {
    for (first, number) in (0u8..=255).zip(FIRST_BYTES.iter()) {
        assert!(rt; begins(first, *number), "{}", first);
    }
}

// What the registers read once the value was offered. STATUS keeps no value.
fn settles(unit: &mut Bench, start: Start, row: &Value) -> bool {
    if row.taken && row.register != 0x07 {
        keeps_others(unit, start, row.register, &[row.value])
    } else {
        keeps_all(unit, start)
    }
}

fn writes(row: &Value, start: Start) -> bool {
    let mut unit = started(start);
    let mut buffer = FRESH;
    let given = unit
        .command(&[0x20 | row.register, row.value], &mut buffer)
        .err();
    let answered = if row.taken {
        given.is_none() && is_reply(&buffer, &[])
    } else {
        is_refusal(given, 9, Some(row.register)) && buffer == FRESH
    };
    answered && settles(&mut unit, start, row)
}

// No profile names STATUS.
fn loads(row: &Value, start: Start) -> bool {
    if row.register == 0x07 {
        return true;
    }
    let [a, b, c, d] = row.map;
    let (mut unit, given) = started(start).load(&[a, b, c, d, row.value]);
    let answered = if row.taken {
        given.is_ok()
    } else {
        is_refusal(given.err(), 9, Some(row.register))
    };
    answered && settles(&mut unit, start, row)
}

#[test]
fn values(rt: HostRuntime) {
    for (i, row) in VALUES.iter().enumerate() {
        assert!(rt;
            writes(row, Start::Reset) && writes(row, Start::Written),
            "{}",
            i
        );
        assert!(rt;
            loads(row, Start::Reset) && loads(row, Start::Written),
            "{}",
            i
        );
    }
}

fn writes_wide(unit: &mut Bench, register: u8, value: [u8; 5]) -> bool {
    let [a, b, c, d, e] = value;
    serves(unit, &[0x20 | register, a, b, c, d, e])
}

fn takes(row: &Wide, start: Start) -> bool {
    let mut unit = started(start);
    writes_wide(&mut unit, row.register, row.bytes)
        && keeps_others(&mut unit, start, row.register, &row.bytes)
}

#[test]
fn wide_values(rt: HostRuntime) {
    for (i, row) in WIDE_VALUES.iter().enumerate() {
        assert!(rt;
            takes(row, Start::Reset) && takes(row, Start::Written),
            "{}",
            i
        );
    }
}

fn field_of(fields: &'static [Field], register: u8) -> Option<&'static [u8]> {
    fields
        .iter()
        .find(|field| field.register == register)
        .map(|field| field.bytes)
}

// The field of every register, also where there is none.
fn looks_up(row: &Profile) -> bool {
    (0u8..=255).all(|register| {
        field(row.bytes, register).is_ok_and(|found| found == field_of(row.fields, register))
    }) && number_of_fields(row.bytes).ok() == Some(row.count)
}

// Whether each register of the profile reads its field, and each other as it does at the start.
fn holds(unit: &mut Bench, start: Start, fields: &'static [Field]) -> bool {
    Register::all()
        .into_iter()
        .map(Register::address)
        .all(|register| match field_of(fields, register) {
            Some(value) => reads(unit, register, value),
            None => keeps(unit, start, register),
        })
}

fn loads_all(row: &Profile, start: Start) -> bool {
    let (mut unit, given) = started(start).load(row.bytes);
    match row.refused {
        Some(_) => is_refusal(given.err(), 9, row.refused) && keeps_all(&mut unit, start),
        None => given.is_ok() && holds(&mut unit, start, row.fields),
    }
}

#[test]
fn profiles(rt: HostRuntime) {
    for (i, row) in PROFILES.iter().enumerate() {
        assert!(rt; looks_up(row), "{}", i);
        assert!(rt;
            loads_all(row, Start::Reset) && loads_all(row, Start::Written),
            "{}",
            i
        );
    }
}

// Whether the loader, the count and every lookup refuse the profile.
fn is_wrong(profile: &[u8]) -> bool {
    let (mut unit, given) = started(Start::Written).load(profile);
    (0u8..=255).all(|register| is_refusal(field(profile, register).err(), 11, None))
        && is_refusal(number_of_fields(profile).err(), 11, None)
        && is_refusal(given.err(), 11, None)
        && keeps_all(&mut unit, Start::Written)
}

#[test]
fn wrong_profiles(rt: HostRuntime) {
    for (i, profile) in WRONG_PROFILES.iter().enumerate() {
        assert!(rt; is_wrong(profile), "{}", i);
    }
}

// Writes registers of one byte that follow one another.
fn writes_each(unit: &mut Bench, first: u8, values: &[u8]) -> bool {
    (first..).zip(values.iter()).all(|(register, value)| serves(unit, &[0x20 | register, *value]))
}

fn sets_up(unit: &mut Bench, row: &Setup, config: u8) -> bool {
    writes_each(
        unit,
        0x00,
        &[config, row.en_aa, row.en_rxaddr, row.setup_aw],
    ) && writes_wide(unit, 0x0A, row.rx_addr_p0)
        && writes_wide(unit, 0x0B, row.rx_addr_p1)
        && writes_each(unit, 0x0C, &row.low_bytes)
        && writes_wide(unit, 0x10, row.tx_addr)
        && writes_each(unit, 0x11, &row.lengths)
}

// Whether the check call finds the fault or none, and a unit that is boxed so remembers it; its IRQ pin is high.
fn finds<C: Check>(row: &Setup, config: u8) -> bool {
    let mut unit = Bench::new();
    let written = sets_up(&mut unit, row, config);
    let given = unit.check::<C>().err();
    let answered = match row.fault {
        Some(_) => is_refusal(given, 12, row.fault),
        None => given.is_none(),
    };
    let boxed = Boxed::<C>::new(unit);
    written && answered && address_of(boxed.state.fault) == row.fault && !boxed.irq_is_low()
}

#[test]
fn setups(rt: HostRuntime) {
    for (i, row) in SETUPS.iter().enumerate() {
        assert!(rt;
            finds::<Crc8>(row, row.config_crc8) && finds::<Crc16>(row, row.config_crc16),
            "{}",
            i
        );
    }
}
