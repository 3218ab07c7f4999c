// Making a cell. Each test of a unit has the contract of its definition.
ghost use Rattle.std.specs.Prelude.{◌≡◌, ℕ, ◌<◌, ◌≤◌, length, Some, None, slice_index, slice_index_or, nat_lt, ◌&&◌, IfOk, IfErr};
ghost use Rattle.std.specs.Str.{bytes_eq};
ghost use Rattle.registers.specs.Bits.{bit};
ghost use Rattle.registers.specs.File.{byte_of};
ghost use Rattle.registers.specs.Readings.{pipe_address};
ghost use Rattle.bench.specs.Checking.{in_use};
ghost use Rattle.unit.specs.Commanding.{alike};
ghost use Rattle.unit.specs.Units.{tx_address};
ghost use Rattle.unit.specs.Hearing.{on_pipe};
ghost use Rattle.cell.specs.Refusals.{refusal_of};
ghost use Rattle.cell.specs.Making.{but_for_masks, as_boxed, is_shutdown, no_flag, nothing_in, tuned_alike, pipe_for, same_pipe, pipe_taken, receiver_fits, sender_fits, senders_at_fault, unit_at_fault, places_of, made, states, NewlyMade, OfBytesState, OfBytesInside};

use crate::parts::{Cell, Inside, Places};
use crate::refusal::{Cause, Refusal};
use bench::Bench;
use checks::Check;
use commands::Flags;
use frames::{Pid, known_bytes};
use modes::{Core, Mode};
use registers::{Pipe, Register, Registers, stands};
use std::marker::PhantomData;
use unit::{Boxed, Memories, State};

// ---- units as boxing without a fault gives them

fn is_shutdown(mode: Mode) -> bool
    ensures { result ≡ is_shutdown mode }
{
    matches!(mode, Mode::Shutdown)
}

fn has_no_flag(flags: Flags) -> bool
    ensures { result ≡ no_flag flags }
{
    !flags.rx_dr && !flags.tx_ds && !flags.max_rt
}

fn has_no_memory(memories: &Memories) -> bool
    ensures { result ≡ nothing_in memories.now.at }
{
    memories.at.iter().all(Option::is_none)
}

// The bit stands in both bytes or in neither.
fn is_bit_alike(one: u8, other: u8, place: u8) -> bool
    ensures { result ≡ alike (bit place one) (bit place other) }
{
    stands(one, place) == stands(other, place)
}

// The bits of CONFIG that are no interrupt mask are those that it was boxed with.
fn is_as_boxed_but_for_masks(boxed: u8, now: u8) -> bool
    ensures { result ≡ but_for_masks boxed now }
{
    is_bit_alike(boxed, now, 7)
        && is_bit_alike(boxed, now, 3)
        && is_bit_alike(boxed, now, 2)
        && is_bit_alike(boxed, now, 1)
        && is_bit_alike(boxed, now, 0)
}

// The state that boxing gives, with the registers, the interrupt masks and the memories that it has.
fn is_as_boxed<C: Check>(unit: &State) -> bool
    ensures { result ≡ as_boxed C.Check.W unit.now }
{
    let bench = Bench {
        registers: unit.registers,
    };
    unit.fault.is_none()
        && bench.fault::<C>().is_none()
        && !unit.core.ce
        && is_shutdown(unit.core.mode)
        && is_as_boxed_but_for_masks(unit.registers.byte(Register::Config), unit.core.config)
        && has_no_flag(unit.core.flags)
        && unit.core.counts.again == 0
        && unit.core.counts.lost == 0
        && unit.pid.number() == 0
        && unit.tx.is_empty()
        && unit.rx.is_empty()
        && has_no_memory(&unit.memories)
}

// ---- units that are alike

// The bit at `place` of the register stands in both or in neither.
fn has_bit_of(receiver: &Registers, sender: &Registers, register: Register, place: u8) -> bool
    ensures { result ≡ alike (bit place (byte_of receiver.now register)) (bit place (byte_of sender.now register)) }
{
    is_bit_alike(receiver.byte(register), sender.byte(register), place)
}

// Equal address width, channel, rate and CRCO. The rate by its two bits, since `Rate` does not tell bit 5 alone from both.
fn is_tuned_alike(receiver: &Registers, sender: &Registers) -> bool
    ensures { result ≡ tuned_alike receiver.now sender.now }
{
    receiver.address_width() == sender.address_width()
        && receiver.byte(Register::RfCh) == sender.byte(Register::RfCh)
        && has_bit_of(receiver, sender, Register::RfSetup, 5)
        && has_bit_of(receiver, sender, Register::RfSetup, 3)
        && has_bit_of(receiver, sender, Register::Config, 2)
}

// The receiver's pipe with the address of a sender.
fn pipe_for(receiver: &State, sender: &State) -> Option<Pipe>
    ensures { result ≡ pipe_for receiver.now.registers sender.now.registers }
{
    receiver.pipe_of(&sender.tx_address())
}

// The sender has the pipe.
fn has_pipe(receiver: &State, sender: &State, pipe: Pipe) -> bool
    ensures { result ≡ same_pipe (pipe_for receiver.now.registers sender.now.registers) (Some pipe) }
{
    pipe_for(receiver, sender).is_some_and(|other| other.index() == pipe.index())
}

// One of these senders has the pipe.
fn is_taken<C>(receiver: &State, senders: &[Boxed<C>], pipe: Pipe) -> bool
    ensures { result ≡ pipe_taken receiver.now.registers (states senders.now) (Some pipe) }
{
    senders
        .iter()
        .any(|sender| has_pipe(receiver, &sender.state, pipe))
}

// ---- the lowest unit at fault

fn fits_as_receiver<C: Check>(unit: &State) -> bool
    ensures { result ≡ receiver_fits C.Check.W unit.now }
{
    is_as_boxed::<C>(unit) && unit.registers.is_receiver()
}

// How many senders a cell has at most.
const MOST_SENDERS: usize = 6;

// One more sender, after some earlier ones.
fn fits_as_sender<C: Check>(receiver: &State, earlier: &[Boxed<C>], unit: &State) -> bool
    ensures { result ≡ (nat_lt (length earlier.now) 6 && sender_fits C.Check.W receiver.now.registers (states earlier.now) unit.now) }
{
    earlier.len() < MOST_SENDERS
        && is_as_boxed::<C>(unit)
        && !unit.registers.is_receiver()
        && is_tuned_alike(&receiver.registers, &unit.registers)
        && pipe_for(receiver, unit).is_some_and(|pipe| !is_taken(receiver, earlier, pipe))
}

// Without a sender it is unit 1.
fn sender_at_fault<C: Check>(receiver: &State, senders: &[Boxed<C>]) -> Option<u8>
    ensures { result ≡ senders_at_fault C.Check.W receiver.now.registers (states senders.now) }
{
    if senders.is_empty() {
        return Some(1);
    }
    for (i, sender) in senders.iter().enumerate() {
        if !fits_as_sender(receiver, &senders[..i], &sender.state) {
            return Some(i as u8 + 1);
        }
    }
    None
}

// Unit 0 is the receiver.
fn unit_at_fault<C: Check>(units: &[Boxed<C>]) -> Option<u8>
    ensures { result ≡ unit_at_fault C.Check.W (states units.now) }
{
    let [receiver, senders @ ..] = units else {
        return Some(0);
    };
    if fits_as_receiver::<C>(&receiver.state) {
        sender_at_fault(&receiver.state, senders)
    } else {
        Some(0)
    }
}

// ---- the cell that is made

// Nothing is done: the contract says what the types of a unit's parts keep.
fn known(unit: &State)
    ensures { OfBytesState unit.now }
{
    // what these calls ensure is all the proof
    known_bytes(&unit.registers.value(Register::TxAddr)[..unit.registers.address_width()]);
    let _six = unit.memories.at.iter().len();
}

// The units in their order. The last one is placed first, since a vector hands out its last element.
fn places_of<C>(mut units: Vec<Boxed<C>>) -> Places
    requires { length units.items ≤ 7 }
    ensures places { result.at ≡ places_of (states units.items) }
    ensures bytes { (u : ℕ) (s : State) → slice_index_or result.at u None ≡ Some s → OfBytesState s }
{
    let mut at = [None, None, None, None, None, None, None];
    while let Some(unit) = units.pop() {
        let Boxed { state, kind: _ } = unit;
        known(&state);
        at[units.len()] = Some(state);
    }
    units.destroy_empty();
    Places { at }
}

// The units that make no cell, and why.
#[derive(Drop)]
pub struct Unmade<C> {
    pub refusal: Refusal,
    pub units: Vec<Boxed<C>>,
}

impl<C: Check> Cell<C> {
    // Makes a cell of these units, in their order and with nothing on the air, if none is at fault; else they all come back
    // (docs/CELL.md). It allocates nothing: the vector is the caller's.
    pub fn make(units: Vec<Boxed<C>>) -> Result<Cell<C>, Unmade<C>>
        ensures fits { IfOk result (λ _. unit_at_fault C.Check.W (states units.items) ≡ None) }
        ensures made { IfOk result (λ c. c.inside ≡ made (states units.items)) }
        ensures newly { IfOk result (λ c. NewlyMade C.Check.W c.inside × OfBytesInside c.inside) }
        ensures fault { IfErr result (λ e. unit_at_fault C.Check.W (states units.items) ≡ Some e.refusal.unit) }
        ensures refusal { IfErr result (λ e. e.refusal ≡ refusal_of e.refusal.unit Cause.CannotBeMade) }
        ensures back { IfErr result (λ e. e.units ≡ units) }
    {
        if let Some(unit) = unit_at_fault(&units) {
            return Err(Unmade {
                refusal: Cause::CannotBeMade.at(unit),
                units,
            });
        }
        Ok(Cell {
            inside: Inside {
                places: places_of(units),
                air: None,
            },
            kind: PhantomData,
        })
    }
}
