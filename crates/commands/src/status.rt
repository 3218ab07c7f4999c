ghost use Rattle.std.specs.Prelude.{◌≡◌};
ghost use Rattle.commands.specs.Status.{no_flags, status_of, cleared, observed, fifo_of, irq_of, LowWhen, Rests};

use crate::flags::Flags;
use registers::{Pipe, stands};

// The three flags are written out, each with its bit, in the functions that read or make a byte of them: what is promised goes
// flag by flag, and a byte of all three would have to be told apart into its bits again.
impl Flags {
    // No flag stands: with none, nothing received, nothing lost and empty queues, a unit shows its reset values.
    pub fn none() -> Flags
        ensures value { result ≡ no_flags }
        ensures rests { Rests result }
    {
        Flags {
            rx_dr: false,
            tx_ds: false,
            max_rt: false,
        }
    }

    // The flags after `value` is written to STATUS: a 1 in bit 6, 5 or 4 clears its flag.
    pub fn cleared_by(self, value: u8) -> Flags
        ensures { result ≡ cleared self value }
    {
        Flags {
            rx_dr: self.rx_dr && !stands(value, 6),
            tx_ds: self.tx_ds && !stands(value, 5),
            max_rt: self.max_rt && !stands(value, 4),
        }
    }
}

// STATUS as it reads: the flags, the pipe of the oldest received payload (7 if there is none), and whether the TX queue is full.
pub fn status_byte(flags: Flags, pipe: Option<Pipe>, tx_full: bool) -> u8
    ensures { result ≡ status_of flags pipe tx_full }
{
    let index = pipe.map_or(7, Pipe::index);
    64 * u8::from(flags.rx_dr)
        + 32 * u8::from(flags.tx_ds)
        + 16 * u8::from(flags.max_rt)
        + 2 * index
        + u8::from(tx_full)
}

// OBSERVE_TX: how many payloads were given up and how often the last one was sent again, each at most 15.
pub fn observe_tx(lost: u8, retries: u8) -> u8
    ensures { result ≡ observed lost retries }
{
    16 * lost.min(15) + retries.min(15)
}

// FIFO_STATUS, by the lengths of the two queues of three places.
pub fn fifo_status(tx: usize, rx: usize) -> u8
    ensures { result ≡ fifo_of tx rx }
{
    32 * u8::from(tx == 3) + 16 * u8::from(tx == 0) + 2 * u8::from(rx == 3) + u8::from(rx == 0)
}

// Whether the IRQ pin is low: exactly when some flag stands whose mask bit in CONFIG is clear.
pub fn irq_low(flags: Flags, config: u8) -> bool
    ensures value { result ≡ irq_of flags config }
    ensures law { LowWhen flags config result }
{
    flags.rx_dr && !stands(config, 6)
        || flags.tx_ds && !stands(config, 5)
        || flags.max_rt && !stands(config, 4)
}
