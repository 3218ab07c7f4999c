ghost use Rattle.std.specs.Prelude.{◌≡◌, true, false, cond};
ghost use Rattle.modes.specs.Modes.{at_rest, wait_ticks, begun, given_up, ticked, sends, uneventful, elapsed, leveled, acknowledged, flushed, reconfigured, is_waiting, is_rx, busy};

use crate::parts::{Core, Mode, Retry, Role};
use registers::stands;

// From power up to Standby.
const START_TICKS: u16 = 200;

// Until a receiver listens, or a sender sends.
const TUNING_TICKS: u16 = 13;

impl Retry {
    // How long an acknowledgement is waited for.
    pub fn wait_ticks(self) -> u16
        ensures { result ≡ wait_ticks self }
    {
        25 * (u16::from(self.delay) + 1)
    }

    // A frame was sent, and its acknowledgement is waited for.
    fn waiting(self) -> Mode
        ensures { result ≡ Mode.Waiting (wait_ticks self) }
    {
        Mode::Waiting {
            left: self.wait_ticks(),
        }
    }
}

impl Mode {
    // Whether a sender listens for its acknowledgement.
    pub fn is_waiting(self) -> bool
        ensures { result ≡ is_waiting self }
    {
        matches!(self, Mode::Waiting { .. })
    }

    // Whether a receiver listens.
    pub fn is_rx(self) -> bool
        ensures { result ≡ is_rx self }
    {
        matches!(self, Mode::Rx)
    }

    // Whether registers other than STATUS cannot be written now.
    pub fn is_busy(self) -> bool
        ensures { result ≡ busy self }
    {
        matches!(self, Mode::Tuning { .. } | Mode::Waiting { .. } | Mode::Rx)
    }
}

impl Core {
    // Goes where a powered unit with nothing under way is.
    fn rest(&mut self, role: Role)
        ensures { self.new ≡ at_rest role self.old }
    {
        self.mode = match (role, self.ce) {
            (_, false) => Mode::Standby,
            (Role::Sender, true) => Mode::IdleTx,
            (Role::Receiver, true) => Mode::Tuning { left: TUNING_TICKS },
        };
    }

    // A transaction begins.
    fn begin(&mut self)
        ensures { self.new ≡ begun self.old }
    {
        self.counts.again = 0;
        self.mode = Mode::Tuning { left: TUNING_TICKS };
    }

    // The last Waiting tick with no retransmit left.
    fn give_up(&mut self, role: Role)
        ensures { self.new ≡ given_up role self.old }
    {
        self.flags.max_rt = true;
        self.counts.lost = self.counts.lost.saturating_add(1).min(15);
        self.rest(role);
    }

    // One tick, if it is uneventful: nothing changes but a count, and it is done without role and retries. The answer says whether it
    // is; any other is not done. The countdown is written out for each mode: of an or-pattern over the three that binds `left` by `&mut`
    // it is not proved that what is written through `left` is the mode that stands then.
    #[inline]
    pub fn tick_if_uneventful(&mut self, waiting: bool) -> bool
        ensures answer { result ≡ uneventful waiting self.old }
        ensures after { self.new ≡ cond (uneventful waiting self.old) (elapsed self.old) self.old }
        ensures law { (role : Role) (retry : Retry) → uneventful waiting self.old ≡ true → (ticked role retry waiting self.old ≡ elapsed self.old) × (sends role retry self.old ≡ false) }
    {
        match self.mode {
            Mode::Shutdown | Mode::Standby | Mode::Rx => {}
            Mode::IdleTx if !waiting || self.flags.max_rt => {}
            Mode::Starting { left } if left > 1 => self.mode = Mode::Starting { left: left - 1 },
            Mode::Tuning { left } if left > 1 => self.mode = Mode::Tuning { left: left - 1 },
            Mode::Waiting { left } if left > 1 => self.mode = Mode::Waiting { left: left - 1 },
            _ => return false,
        }
        true
    }

    // One tick; `waiting` says whether a payload stands in the TX queue. The answer says whether the oldest payload is sent.
    pub fn tick(&mut self, role: Role, retry: Retry, waiting: bool) -> bool
        ensures after { self.new ≡ ticked role retry waiting self.old }
        ensures answer { result ≡ sends role retry self.old }
    {
        if self.tick_if_uneventful(waiting) {
            return false;
        }
        match (self.mode, role) {
            (Mode::Starting { .. }, _) => self.rest(role),
            (Mode::IdleTx, _) => self.begin(),
            (Mode::Tuning { .. }, Role::Receiver) => self.mode = Mode::Rx,
            (Mode::Tuning { .. }, Role::Sender) => {
                self.mode = retry.waiting();
                return true;
            }
            (Mode::Waiting { .. }, _) if self.counts.again < retry.count => {
                self.counts.again += 1;
                self.mode = retry.waiting();
                return true;
            }
            (Mode::Waiting { .. }, _) => self.give_up(role),
            // uneventful
            (Mode::Shutdown | Mode::Standby | Mode::Rx, _) => {}
        }
        false
    }

    // Sets the level of CE; a level that is there already changes nothing.
    pub fn set_ce(&mut self, role: Role, high: bool)
        ensures { self.new ≡ leveled role high self.old }
    {
        if self.ce == high {
            return;
        }
        self.ce = high;
        match (self.mode, role) {
            (Mode::Standby, _) if high => self.rest(role),
            (Mode::IdleTx, _) if !high => self.mode = Mode::Standby,
            (Mode::Tuning { .. } | Mode::Rx, Role::Receiver) if !high => self.mode = Mode::Standby,
            _ => {}
        }
    }

    // The acknowledgement of the payload under way; `left` says whether another payload waits.
    pub fn acknowledge(&mut self, left: bool)
        ensures { self.new ≡ acknowledged left self.old }
    {
        self.flags.tx_ds = true;
        if self.ce && left {
            self.begin();
        } else {
            self.rest(Role::Sender);
        }
    }

    // FLUSH_TX at a sender: a transaction under way ends.
    pub fn flush(&mut self)
        ensures { self.new ≡ flushed self.old }
    {
        if self.mode.is_busy() {
            self.rest(Role::Sender);
        }
    }

    // A new value of CONFIG, with the mode that its PWR_UP leads to.
    pub fn configure(&mut self, config: u8)
        ensures { self.new ≡ reconfigured config self.old }
    {
        self.config = config;
        match (self.mode, stands(config, 1)) {
            (Mode::Shutdown, true) => self.mode = Mode::Starting { left: START_TICKS },
            (Mode::Starting { .. } | Mode::Standby | Mode::IdleTx, false) => self.mode =
                Mode::Shutdown,
            _ => {}
        }
    }
}
