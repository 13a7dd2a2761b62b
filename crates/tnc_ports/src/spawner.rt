//! What runs two jobs beside each other.
ghost use Rattle.std.specs.Prelude.{ℕ, ◌≡◌};
ghost use Rattle.tnc_ports.specs.Starts.{CountsUnless, lock_of};

use crate::starting::Start;
use std::sync::{OnceToken, Wait};
use std::thread::{Threads, join_mut};

/// In which order two jobs run.
#[derive(Clone, Copy, Debug, PartialEq, Eq)]
pub enum Order {
    /// At once, the pump in a thread of its own. If that thread can't be started, the pump runs last.
    AtOnce,
    /// The pump first.
    PumpFirst,
    /// The pump last.
    PumpLast,
}

/// Says in which order a pump and the turns beside it run, and finds out whether the pump begins. Like a stream, a
/// spawner counts its faults, so that nobody can blame it for a failure of its own.
pub trait Spawner {
    /// How often no thread could be started for a pump.
    ghost faults: { Self → ℕ };

    /// In which order the two jobs run.
    fn order(&self) -> Order;

    /// Waits until the pump has begun. If it does not begin, no thread could be started for it: that is counted, and
    /// the pump is given up.
    fn await_pump<'a, R: Wait>(&mut self, rt: &R, start: &'a Start) -> OnceToken<'a, bool>
        ensures lock { result.of ≡ lock_of start.now }
        ensures counted { CountsUnless result.value (faults self.old) (faults self.new) };
}

/// Calls `pump` once and `here` once, in this order, and returns after both have. Each closure is left as its one call
/// leaves it.
pub fn beside<R: Threads + Wait + Sync, P: FnMut() + Send, S: FnMut()>(
    rt: &R,
    order: Order,
    pump: &mut P,
    here: &mut S,
)
    requires { P.pre pump.old × S.pre here.old }
    ensures { P.step pump.old tt pump.new × S.step here.old tt here.new }
{
    match order {
        Order::AtOnce => {
            join_mut(rt, pump, here);
        }
        Order::PumpFirst => {
            pump();
            here();
        }
        Order::PumpLast => {
            here();
            pump();
        }
    }
}
