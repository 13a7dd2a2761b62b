//! The live side of the system.
ghost use Rattle.std.specs.Prelude.{◌≡◌};
ghost use Rattle.tnc_ports.specs.declared.spawner.Order.TheVariants.{AtOnce};

use crate::live::Live;
use crate::spawner::{Order, Spawner};
use crate::starting::Start;
use host_ports::RealPorts;
use key_port::RealKeyPort;
use std::sync::{OnceToken, Wait};

/// Runs two jobs at once, one of them in a thread of its own.
#[derive(Debug, Drop)]
pub struct RealSpawner {
    faults: u64,
}

impl RealSpawner {
    /// Has counted no fault.
    pub fn new() -> RealSpawner {
        RealSpawner { faults: 0 }
    }
}

impl Spawner for RealSpawner {
    ghost faults = { λ s. s.faults };

    fn order(&self) -> Order
        ensures { result ≡ AtOnce }
    {
        Order::AtOnce
    }

    fn await_pump<'a, R: Wait>(&mut self, rt: &R, start: &'a Start) -> OnceToken<'a, bool> {
        start.wait(rt, &mut self.faults)
    }
}

/// The sockets and threads of the system, with a clock for the line of the transmitter's key.
pub type RealLive<C> = Live<RealPorts, RealSpawner, RealKeyPort<C>>;
