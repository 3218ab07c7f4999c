ghost use Rattle.std.specs.Prelude.{◌≡◌, false};
ghost use Rattle.std.specs.Fn.{iterate};
ghost use Rattle.embed.specs.Units.{commanded, ticked_again, boxed_with, unit_up, sender, receiver, sender_writing, heard_again, before_hearing, known_again, before_knowing, frame_of};

use crate::packing::sinkapricot_pack;
use crate::repeating::work::{Work, turned};
use bench::Bench;
use checks::Crc16;
use std::mem;
use unit::{Boxed, State};

// A turn: one tick. Where a flag pulls the IRQ pin low after it, MAX_RT is cleared by a command. The answer is the sum of the bits
// that were sent.
#[derive(Drop)]
struct Ticking {
    state: State,
    buffer: [u8; 42],
    sum: u64,
}

impl Work for Ticking {
    ghost step = { ticked_again };

    #[inline(never)]
    fn turn(&mut self) {
        let bits = self.state.tick::<Crc16>(&mut self.buffer).unwrap_or(0);
        self.sum = self.sum.saturating_add(bits as u64);
        if self.state.irq_is_low() {
            self.command(&[0x27, 0x10]);
        }
    }
}

impl Ticking {
    // The unit carries out a host command.
    fn command(&mut self, host: &[u8])
        ensures { self.new ≡ commanded host.now self.old }
    {
        let _reply = self.state.command(host, &mut self.buffer);
    }
}

// A unit of that profile, boxed for the check of 16 bits, with that level of CE.
fn boxed_with(profile: &[u8], high: bool) -> Ticking
    ensures { result ≡ boxed_with profile.now high }
{
    let (bench, _loaded) = Bench::new().load(profile);
    let Boxed { mut state, kind: _ } = Boxed::<Crc16>::new(bench);
    let _ce = state.ce(high);
    Ticking {
        state,
        buffer: [0; 42],
        sum: 0,
    }
}

// That byte is written into CONFIG, which powers the unit up. 213 ticks later, 200 in Starting and 13 in Tuning, it is in Standby
// with CE low, else in Idle-TX or RX.
#[tactic(auto, unfolding(crate::specs::Units::unit_up))]
fn unit_up(profile: &[u8], config: u8, high: bool, ticks: u64) -> Ticking
    ensures { result ≡ unit_up profile.now config high ticks }
{
    let mut work = boxed_with(profile, high);
    work.command(&[0x20, config]);
    turned(work, ticks)
}

// SETUP_RETR FF: it waits 400 ticks and sends 15 times again.
fn sender(high: bool) -> Ticking
    ensures { result ≡ sender high }
{
    unit_up(&[0x00, 0x00, 0x00, 0x11, 0x0C, 0xFF], 0x0E, high, 213)
}

// Pipe 0 alone, for payloads of 32 bytes.
fn receiver() -> Ticking
    ensures { result ≡ receiver }
{
    unit_up(&[0x00, 0x02, 0x00, 0x05, 0x0D, 0x01, 0x20], 0x0F, true, 213)
}

// Ticks of a sender in Standby, which sends nothing.
#[unsafe(no_mangle)]
pub extern "C" fn sinkapricot_repeat_tick_standby(turns: u64) -> u64
    ensures { result ≡ (iterate ticked_again turns (sender false)).sum }
{
    turned(sender(false), turns).sum
}

// Ticks of a sender with a payload of one byte whose frames are all lost: of 6414 it is 6400 in Waiting, and sends 16 frames.
#[unsafe(no_mangle)]
pub extern "C" fn sinkapricot_repeat_tick_waiting(turns: u64) -> u64
    ensures { result ≡ (iterate ticked_again turns sender_writing).sum }
{
    let mut work = sender(true);
    work.command(&[0xA0, 0x5A]);
    turned(work, turns).sum
}

// A turn: a receiver hears a frame that is new to it, takes and answers it; then FLUSH_RX empties its queue, and the other frame is
// the next. The two have packet identities 0 and 1, and payloads of 32 bytes 5A. The answer is the sum of the answers' bits.
#[derive(Drop)]
struct Hearing {
    state: State,
    frame: [u8; 42],
    other: [u8; 42],
    buffer: [u8; 42],
    sum: u64,
}

impl Work for Hearing {
    ghost step = { heard_again };

    #[inline(never)]
    fn turn(&mut self) {
        let bits = self
            .state
            .hear::<Crc16>(&self.frame, 329, &mut self.buffer)
            .unwrap_or(0);
        self.sum = self.sum.saturating_add(bits as u64);
        let _reply = self.state.command(&[0xE2], &mut self.buffer);
        mem::swap(&mut self.frame, &mut self.other);
    }
}

fn frame_of(pid: u8) -> [u8; 42]
    ensures { result ≡ frame_of pid }
{
    let mut frame = [0; 42];
    let _bits = sinkapricot_pack(16, &[0xE7; 5], pid, false, &[0x5A; 32], &mut frame);
    frame
}

#[unsafe(no_mangle)]
pub extern "C" fn sinkapricot_repeat_hear_taking(turns: u64) -> u64
    ensures { result ≡ (iterate heard_again turns before_hearing).sum }
{
    let Ticking { state, buffer, sum } = receiver();
    let work = Hearing {
        state,
        frame: frame_of(0),
        other: frame_of(1),
        buffer,
        sum,
    };
    turned(work, turns).sum
}

// A turn: the receiver hears the frame, which it knows from the second turn on, and answers it. The answer is the sum of the
// answers' bits.
#[derive(Drop)]
struct Knowing {
    state: State,
    frame: [u8; 42],
    buffer: [u8; 42],
    sum: u64,
}

impl Work for Knowing {
    ghost step = { known_again };

    #[inline(never)]
    fn turn(&mut self) {
        let bits = self
            .state
            .hear::<Crc16>(&self.frame, 329, &mut self.buffer)
            .unwrap_or(0);
        self.sum = self.sum.saturating_add(bits as u64);
    }
}

#[unsafe(no_mangle)]
pub extern "C" fn sinkapricot_repeat_hear_knowing(turns: u64) -> u64
    ensures { result ≡ (iterate known_again turns before_knowing).sum }
{
    let Ticking { state, buffer, sum } = receiver();
    let work = Knowing {
        state,
        frame: frame_of(1),
        buffer,
        sum,
    };
    turned(work, turns).sum
}
