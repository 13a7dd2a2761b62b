//! What calls cost.
ghost use Rattle.std.specs.Prelude.{◌≡◌, ◌+◌, ◌-◌, ◌*◌, ◌/◌, ◌^◌, ◌<◌, min};
ghost use Rattle.std.specs.Duration.{as_nanos, max_nanos};

use std::fmt;
use std::time::Duration;

/// Processor time, and the calls that it went to.
#[derive(Clone, Copy)]
pub struct Spent {
    pub time: Duration,
    pub calls: u64,
}

impl Spent {
    pub fn nothing() -> Spent
        ensures { (as_nanos result.time ≡ 0) × (result.calls ≡ 0) }
    {
        Spent {
            time: Duration::ZERO,
            calls: 0,
        }
    }

    /// Takes in the time of more calls.
    pub fn add(&mut self, more: Spent)
        ensures time { as_nanos self.new.time ≡ min (as_nanos self.old.time + as_nanos more.time) max_nanos }
        ensures calls { self.new.calls ≡ min (self.old.calls + more.calls) (2 ^ 64 - 1) }
    {
        self.time = self.time.saturating_add(more.time);
        self.calls = self.calls.saturating_add(more.calls);
    }

    /// Picoseconds a call, and 0 if there was none.
    fn picoseconds(&self) -> u128
        ensures { as_nanos self.now.time < 2 ^ 64 → result ≡ as_nanos self.now.time * 1000 / self.now.calls }
    {
        if self.calls == 0 {
            return 0;
        }
        self.time.as_nanos().saturating_mul(1000) / self.calls as u128
    }
}

impl fmt::Display for Spent {
    fn fmt<W: fmt::Write>(&self, f: &mut fmt::Formatter<W>) -> fmt::Result {
        let tenths = self.picoseconds() / 100;
        write!(f, "{}.{} ns", tenths / 10, tenths % 10)
    }
}

/// What the calls of a whole case cost.
#[derive(Clone, Copy)]
pub struct Rates {
    pub publishes: Spent,
    pub reads: Spent,
}

impl fmt::Display for Rates {
    fn fmt<W: fmt::Write>(&self, f: &mut fmt::Formatter<W>) -> fmt::Result {
        let Rates { publishes, reads } = self;
        write!(f, "{publishes} a publish, {reads} a read")
    }
}
