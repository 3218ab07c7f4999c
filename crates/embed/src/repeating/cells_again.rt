ghost use Rattle.std.specs.Prelude.{◌≡◌, ◌⊎◌, IfOk, IfSome};
ghost use Rattle.std.specs.Fn.{iterate};
ghost use Rattle.cell.specs.Making.{states};
ghost use Rattle.embed.specs.Cells.{boxed_of, receiver_of_six, sender_to, units_of_six, powered_up, sender_up, cell_of_six, before_exchanges, before_round, ticks_of, exchanged_again, each, writing, delivering, ticking, written_if_due, round_again};

use crate::repeating::work::{Work, turned};
use bench::Bench;
use cell::Cell;
use checks::Crc16;
use std::alloc::{AllocError, Global};
use unit::Boxed;

// W_TX_PAYLOAD with 32 bytes 5A.
const HOST: [u8; 33] = [
    0xA0, 0x5A, 0x5A, 0x5A, 0x5A, 0x5A, 0x5A, 0x5A, 0x5A, 0x5A, 0x5A, 0x5A, 0x5A, 0x5A, 0x5A, 0x5A,
    0x5A, 0x5A, 0x5A, 0x5A, 0x5A, 0x5A, 0x5A, 0x5A, 0x5A, 0x5A, 0x5A, 0x5A, 0x5A, 0x5A, 0x5A, 0x5A,
    0x5A,
];

// A unit of that profile, boxed for the check of 16 bits.
fn boxed_of(profile: &[u8]) -> Boxed<Crc16>
    ensures { result.state ≡ boxed_of profile.now }
{
    let (bench, _loaded) = Bench::new().load(profile);
    Boxed::new(bench)
}

// Six pipes, each for payloads of 32 bytes.
fn receiver_of_six() -> Boxed<Crc16>
    ensures { result.state ≡ receiver_of_six }
{
    boxed_of(&[
        0x00, 0x7E, 0x00, 0x05, 0x0D, 0x3F, 0x20, 0x20, 0x20, 0x20, 0x20, 0x20,
    ])
}

// SETUP_RETR 2F, and an address of that low byte and four equal ones above it, in RX_ADDR_P0 and TX_ADDR.
fn sender_to(low: u8, high: u8) -> Boxed<Crc16>
    ensures { result.state ≡ sender_to low high }
{
    boxed_of(&[
        0x00, 0x01, 0x04, 0x11, 0x0C, 0x2F, low, high, high, high, high, low, high, high, high,
        high,
    ])
}

// The receiver, then a sender to each of its pipes, whose addresses are those at reset.
fn units_of_six(heap: Global) -> Result<Vec<Boxed<Crc16>>, AllocError>
    ensures { IfOk result (λ units. states units.items ≡ units_of_six) }
{
    let mut units = Vec::new(heap);
    units.push(receiver_of_six())?;
    units.push(sender_to(0xE7, 0xE7))?;
    units.push(sender_to(0xC2, 0xC2))?;
    units.push(sender_to(0xC3, 0xC2))?;
    units.push(sender_to(0xC4, 0xC2))?;
    units.push(sender_to(0xC5, 0xC2))?;
    units.push(sender_to(0xC6, 0xC2))?;
    Ok(units)
}

// CE goes high, the byte is written into CONFIG, and so many ticks go by.
#[tactic(auto, unfolding(crate::specs::Cells::powered_up))]
fn power_up(cell: &mut Cell<Crc16>, unit: u8, config: u8, ticks: u64)
    ensures { cell.new.inside ≡ powered_up unit config ticks cell.old.inside }
{
    let _ce = cell.ce(unit, true);
    let _written = cell.command(unit, &[0x20, config], &mut [0; 33]);
    tick(cell, unit, ticks);
}

fn power_up_senders(cell: &mut Cell<Crc16>, ticks: u64)
    ensures { cell.new.inside ≡ each (sender_up ticks) 6 cell.old.inside }
{
    for before in 0..6 {
        power_up(cell, 1 + before, 0x0E, ticks);
    }
}

// A cell of those units, which are powered up: 213 ticks later the receiver listens.
fn cell_of_six(heap: Global) -> Option<Cell<Crc16>>
    ensures { IfSome result (λ cell. cell.inside ≡ cell_of_six) }
{
    let Ok(units) = units_of_six(heap) else {
        return None;
    };
    let Ok(mut cell) = Cell::make(units) else {
        return None;
    };
    power_up(&mut cell, 0, 0x0F, 213);
    power_up_senders(&mut cell, 213);
    Some(cell)
}

// A turn: sender 1 gets a payload of 32 bytes and makes the 14 ticks that send it; the frame is heard, then its answer, and the
// receiver's oldest payload is read. The payload's first byte goes up by one, modulo 256. The answer is the sum of the lengths of
// what was read, as replies.
#[derive(Drop)]
struct Exchanging {
    cell: Cell<Crc16>,
    host: [u8; 33],
    reply: [u8; 33],
    sum: u64,
}

// So many ticks of a unit.
fn tick(cell: &mut Cell<Crc16>, unit: u8, ticks: u64)
    ensures { cell.new.inside ≡ ticks_of unit ticks cell.old.inside }
{
    for _ in 0..ticks {
        let _sent = cell.tick(unit);
    }
}

impl Work for Exchanging {
    ghost step = { exchanged_again };

    #[inline(never)]
    fn turn(&mut self) {
        let _written = self.cell.command(1, &self.host, &mut self.reply);
        tick(&mut self.cell, 1, 14);
        let _heard = self.cell.carry(1, 0, 0);
        let _answered = self.cell.carry(1, 0, 0);
        let read = self.cell.command(0, &[0x61], &mut self.reply).unwrap_or(0);
        self.sum = self.sum.saturating_add(read as u64);
        self.host[1] = ((u16::from(self.host[1]) + 1) % 256) as u8;
    }
}

// It is 0 where there is no memory for the cell.
#[unsafe(no_mangle)]
pub extern "C" fn sinkapricot_repeat_exchange(heap: Global, turns: u64) -> u64
    ensures { (result ≡ 0) ⊎ (result ≡ (iterate exchanged_again turns before_exchanges).sum) }
{
    let Some(cell) = cell_of_six(heap) else {
        return 0;
    };
    let work = Exchanging {
        cell,
        host: HOST,
        reply: [0; 33],
        sum: 0,
    };
    turned(work, turns).sum
}

// A turn of a round: where `left` is 0, each of the six senders gets a payload of 32 bytes, and `left` begins again at `every`; it
// goes down by one, not below 0. Then each sender in turn makes one tick; a frame that it sends is heard, then its answer, and the
// receiver's oldest payload is read. The answer is the sum of the lengths of what was read, as replies.
#[derive(Drop)]
struct Round {
    cell: Cell<Crc16>,
    every: u64,
    left: u64,
    host: [u8; 33],
    reply: [u8; 33],
    sum: u64,
}

impl Round {
    fn write(&mut self, unit: u8)
        ensures { self.new ≡ writing unit self.old }
    {
        let _written = self.cell.command(unit, &self.host, &mut self.reply);
    }

    fn write_all(&mut self)
        ensures { self.new ≡ each writing 6 self.old }
    {
        for before in 0..6 {
            self.write(1 + before);
        }
    }

    fn deliver(&mut self)
        ensures { self.new ≡ delivering self.old }
    {
        let _heard = self.cell.carry(1, 0, 0);
        let _answered = self.cell.carry(1, 0, 0);
        let read = self.cell.command(0, &[0x61], &mut self.reply).unwrap_or(0);
        self.sum = self.sum.saturating_add(read as u64);
    }

    fn tick(&mut self, unit: u8)
        ensures { self.new ≡ ticking unit self.old }
    {
        let _sent = self.cell.tick(unit);
        if self.cell.inside.air.is_some() {
            self.deliver();
        }
    }

    fn tick_all(&mut self)
        ensures { self.new ≡ each ticking 6 self.old }
    {
        for before in 0..6 {
            self.tick(1 + before);
        }
    }

    fn write_if_due(&mut self)
        ensures { self.new ≡ written_if_due self.old }
    {
        if self.left == 0 {
            self.write_all();
            self.left = self.every.saturating_sub(1);
        } else {
            self.left -= 1;
        }
    }
}

impl Work for Round {
    ghost step = { round_again };

    #[inline(never)]
    fn turn(&mut self) {
        self.write_if_due();
        self.tick_all();
    }
}

// It is 0 where there is no memory for the cell.
#[unsafe(no_mangle)]
pub extern "C" fn sinkapricot_repeat_round(heap: Global, turns: u64, every: u64) -> u64
    ensures { (result ≡ 0) ⊎ (result ≡ (iterate round_again turns (before_round every)).sum) }
{
    let Some(cell) = cell_of_six(heap) else {
        return 0;
    };
    let work = Round {
        cell,
        every,
        left: 0,
        host: HOST,
        reply: [0; 33],
        sum: 0,
    };
    turned(work, turns).sum
}
