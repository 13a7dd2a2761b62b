//! A live side in memory.
ghost use Rattle.std.specs.Prelude.{◌≡◌, ◌-◌, ◌^◌, [], All};
ghost use Rattle.key_port.specs.KeyScripts.{new_key};
ghost use Rattle.tnc_ports.specs.declared.spawner.Order.TheVariants.{PumpFirst};
ghost use Rattle.host_ports.specs.Sockets.{IsWholePiece};
ghost use Rattle.host_ports.specs.Scripts.{new_ports};

use crate::live::Live;
use crate::spawner::{Order, Spawner};
use crate::starting::Start;
use host_ports::MemPorts;
use key_port::MemKeyPort;
use station::HostEvent;
use std::alloc::Global;
use std::sync::{OnceToken, Wait};

/// The seed of a live side in memory, which is the same at each start.
const SEED: u64 = 1;

/// Runs the pump to its end before the other job, in one thread.
#[derive(Debug, Drop)]
pub struct MemSpawner {
    faults: u64,
}

impl MemSpawner {
    /// Has counted no fault.
    pub fn new() -> MemSpawner {
        MemSpawner { faults: 0 }
    }
}

impl Spawner for MemSpawner {
    ghost faults = { λ s. s.faults };

    fn order(&self) -> Order
        ensures { result ≡ PumpFirst }
    {
        Order::PumpFirst
    }

    fn await_pump<'a, R: Wait>(&mut self, rt: &R, start: &'a Start) -> OnceToken<'a, bool> {
        start.wait(rt, &mut self.faults)
    }
}

/// Sockets and a key's line in memory, and jobs one after the other.
pub type MemLive = Live<MemPorts, MemSpawner, MemKeyPort>;

impl Live<MemPorts, MemSpawner, MemKeyPort> {
    /// Gives each event of the script at the poll of its number. The calls of `listen`, `dial`, `poll` and `send` whose
    /// numbers, counted together from 0, are in `failing` fail.
    pub fn new(alloc: Global, script: Vec<(u64, HostEvent)>, failing: Vec<u64>) -> MemLive
        requires { All (λ entry. IsWholePiece entry.1) script.items }
        ensures ports { result.ports ≡ new_ports script.items failing.items (2 ^ 64 - 1) }
        ensures key { result.key ≡ new_key [] 0 }
        ensures seed { result.seed ≡ 1 }
    {
        Live {
            ports: MemPorts::new(alloc, script, failing, usize::MAX),
            spawner: MemSpawner::new(),
            key: MemKeyPort::new(alloc, Vec::new(alloc), 0),
            seed: SEED,
        }
    }

    /// The same, if each send takes at most `takes` octets.
    pub fn taking(
        alloc: Global,
        script: Vec<(u64, HostEvent)>,
        failing: Vec<u64>,
        takes: u32,
    ) -> MemLive
        requires { All (λ entry. IsWholePiece entry.1) script.items }
        ensures ports { result.ports ≡ new_ports script.items failing.items takes }
        ensures key { result.key ≡ new_key [] 0 }
        ensures seed { result.seed ≡ 1 }
    {
        Live {
            ports: MemPorts::new(alloc, script, failing, takes as usize),
            spawner: MemSpawner::new(),
            key: MemKeyPort::new(alloc, Vec::new(alloc), 0),
            seed: SEED,
        }
    }
}
