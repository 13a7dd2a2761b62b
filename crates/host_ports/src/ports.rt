//! The sockets that host programs connect to, by KISS on one port and by AGWPE on another, or that connect to a host.
//!
//! The calls are made in this order: `listen` or `dial`, and then in each turn one `poll` and the `send`s. Like a
//! stream, the sockets count their faults, so that nobody can blame them for a failure of its own, and they tell what
//! was done with them if they know it. A contract on code that works with them can then say what it does to each
//! connection.
ghost use Rattle.std.specs.Prelude.{◌≡◌, ◌≢◌, ℕ, ◌≤◌, Bool, true, List, Some, [], ◌∷◌, ◌++◌, All, length};
ghost use Rattle.std.specs.Prelude.{take, IfOk, OnOk, OnErr, IsErrOf};
ghost use Rattle.tnc_base.specs.Faults.{HasRisen};
ghost use Rattle.host_ports.specs.declared.records.Listen.{Listen};
ghost use Rattle.host_ports.specs.declared.records.Dial.{Dial};
ghost use Rattle.host_ports.specs.Sockets.{Poll, PortsTold, Send, MayCome, has_come, has_dialed};

use crate::records::Listen;
use station::HostEvent;
use std::net::Net;
use thiserror::Error;
use tnc_base::{Failed, OutOfMemory};

/// Why a poll gives no events.
#[derive(Clone, Copy, Debug, PartialEq, Eq, Error)]
pub enum PollFault {
    /// The sockets failed. Their count of faults has risen in the call that answers this.
    #[error("the sockets failed")]
    Failed,
    /// Want of memory.
    #[error("out of memory")]
    Memory,
}

impl From<OutOfMemory> for PollFault {
    ghost use Rattle.host_ports.specs.declared.ports.PollFault.TheVariants.{Memory};

    ghost from_gives = { λ _ fault. fault ≡ Memory };

    fn from(_: OutOfMemory) -> PollFault {
        PollFault::Memory
    }
}

/// Where host programs connect.
pub trait Ports {
    /// What was done with the sockets, as far as the object tells it, and how often a call has failed.
    ghost told: { Self → PortsTold };

    /// Opens the ports at an address.
    fn listen<R: Net>(&mut self, rt: &R, at: Listen) -> Result<(), Failed>
        ensures opened { (before : List Listen) → (told self.old).listens ≡ Some before
            → OnOk result ((told self.new).listens ≡ Some (before ++ at ∷ [])) }
        ensures refused { OnErr result ((told self.new).listens ≡ (told self.old).listens) }
        ensures dials { (told self.new).dials ≡ (told self.old).dials }
        ensures polls { (told self.new).polls ≡ (told self.old).polls }
        ensures shut { (id : ℕ) → (told self.new).is_shut id ≡ (told self.old).is_shut id }
        ensures sent { (id : ℕ) → (told self.new).sent id ≡ (told self.old).sent id }
        ensures sends { (told self.new).sends ≡ (told self.old).sends }
        ensures later { (told self.old).faults ≤ (told self.new).faults }
        ensures failed { OnErr result (HasRisen (told self.old).faults (told self.new).faults) };

    /// Opens a connection to a port of 127.0.0.1 and answers its id. Its octets and its end come as events of a poll;
    /// no event says that it joins.
    fn dial<R: Net>(&mut self, rt: &R, port: u16) -> Result<u32, Failed>
        ensures dialed { (before : List Dial) → (told self.old).dials ≡ Some before → IfOk result (λ id.
            (told self.new).dials ≡ Some (before ++ (record { port = port; id = id }) ∷ [])) }
        ensures refused { OnErr result ((told self.new).dials ≡ (told self.old).dials) }
        ensures listens { (told self.new).listens ≡ (told self.old).listens }
        ensures polls { (told self.new).polls ≡ (told self.old).polls }
        ensures shut { (id : ℕ) → (told self.new).is_shut id ≡ (told self.old).is_shut id }
        ensures sent { (id : ℕ) → (told self.new).sent id ≡ (told self.old).sent id }
        ensures sends { (told self.new).sends ≡ (told self.old).sends }
        ensures later { (told self.old).faults ≤ (told self.new).faults }
        ensures failed { OnErr result (HasRisen (told self.old).faults (told self.new).faults) };

    /// Gives the next events, and waits at most so many milliseconds for one. Octets of the paused ids stay where they
    /// are, and so does what comes of these ids after them.
    fn poll<R: Net>(
        &mut self,
        rt: &R,
        wait_ms: u32,
        paused: &[u32],
    ) -> Result<Vec<HostEvent>, PollFault>
        ensures events { IfOk result (λ events. All (MayCome paused.now) events.items) }
        ensures polled { (before : List Poll) → (told self.old).polls ≡ Some before → IfOk result (λ events.
            (told self.new).polls ≡ Some (before
            ++ (record { wait = wait_ms; paused = paused.now; events = events.items }) ∷ [])) }
        ensures failed_poll { (before : List Poll) → (told self.old).polls ≡ Some before → IsErrOf result PollFault.Failed
            → (told self.new).polls ≡ Some (before ++ (record { wait = wait_ms; paused = paused.now; events = [] }) ∷ []) }
        ensures memory { IsErrOf result PollFault.Memory → (told self.new).polls ≡ (told self.old).polls }
        ensures listens { (told self.new).listens ≡ (told self.old).listens }
        ensures dials { (told self.new).dials ≡ (told self.old).dials }
        ensures shut { (id : ℕ) → (told self.new).is_shut id ≡ (told self.old).is_shut id }
        ensures sent { (id : ℕ) → (told self.new).sent id ≡ (told self.old).sent id }
        ensures sends { (told self.new).sends ≡ (told self.old).sends }
        ensures later { (told self.old).faults ≤ (told self.new).faults }
        ensures failed { IsErrOf result PollFault.Failed → HasRisen (told self.old).faults (told self.new).faults };

    /// Sends a first part of the octets and answers its length. 0 of some octets means that the connection takes
    /// nothing now.
    fn send<R: Net>(&mut self, rt: &R, id: u32, octets: &[u8]) -> Result<usize, Failed>
        ensures bound { IfOk result (λ count. count ≤ length octets.now) }
        ensures sent { (before : List ℕ) → (told self.old).sent id ≡ Some before
            → IfOk result (λ count. (told self.new).sent id ≡ Some (before ++ take count octets.now)) }
        ensures others { (other : ℕ) → other ≢ id → (told self.new).sent other ≡ (told self.old).sent other }
        ensures told { (polled : List Poll) (before : List Send) → (told self.old).polls ≡ Some polled
            → (told self.old).sends ≡ Some before → IfOk result (λ count. (told self.new).sends ≡ Some (before
            ++ (record { id = id; polls = length polled; offered = length octets.now; took = count }) ∷ [])) }
        ensures refused { OnErr result (((told self.new).sent id ≡ (told self.old).sent id)
            × ((told self.new).sends ≡ (told self.old).sends)) }
        ensures listens { (told self.new).listens ≡ (told self.old).listens }
        ensures dials { (told self.new).dials ≡ (told self.old).dials }
        ensures polls { (told self.new).polls ≡ (told self.old).polls }
        ensures shut { (other : ℕ) → (told self.new).is_shut other ≡ (told self.old).is_shut other }
        ensures later { (told self.old).faults ≤ (told self.new).faults }
        ensures failed { OnErr result (HasRisen (told self.old).faults (told self.new).faults) };

    /// Ends a connection.
    fn shut(&mut self, id: u32)
        ensures shut { (before : List Poll) → (told self.old).polls ≡ Some before → has_come id before ≡ true
            → (was : Bool) → (told self.old).is_shut id ≡ Some was → (told self.new).is_shut id ≡ Some true }
        ensures shut_dialed { (before : List Dial) → (told self.old).dials ≡ Some before → has_dialed id before ≡ true
            → (was : Bool) → (told self.old).is_shut id ≡ Some was → (told self.new).is_shut id ≡ Some true }
        ensures others { (other : ℕ) → other ≢ id → (told self.new).is_shut other ≡ (told self.old).is_shut other }
        ensures listens { (told self.new).listens ≡ (told self.old).listens }
        ensures dials { (told self.new).dials ≡ (told self.old).dials }
        ensures polls { (told self.new).polls ≡ (told self.old).polls }
        ensures sent { (other : ℕ) → (told self.new).sent other ≡ (told self.old).sent other }
        ensures sends { (told self.new).sends ≡ (told self.old).sends }
        ensures later { (told self.old).faults ≤ (told self.new).faults };
}
