//! The hosts' side of a live station: the station itself, the connections of host programs, and what waits on the way
//! to them and from them.
//!
//! A turn calls `hear` for each frame and `tick` for each 10 ms, and then `part` once. Each of these delivers what the
//! station says: a piece is appended whole to what waits for its connection, and a connection for which it does not fit
//! is shut. After want of memory the side is spent, and each later call answers that again.
ghost use Rattle.std.specs.Prelude.{◌≡◌, ℕ, ◌≤◌, ◌↔◌, true, List, Some, [], ◌∷◌, ◌++◌, All, IfOk, OnOk, OnErr, IsErr};
ghost use Rattle.std.specs.Result.{IsErrOf};
ghost use Rattle.hdlc_framer.specs.FrameLength.{HasFrameLength};
ghost use Rattle.link_machine.specs.declared.fault.NewFault.{NewFault};
ghost use Rattle.link_machine.specs.Params.{IsRefusedWindow};
ghost use Rattle.station.specs.Monitored.{modulus_between};
ghost use Rattle.host_ports.specs.declared.report_line.ReportLine.{ReportLine};
ghost use Rattle.host_ports.specs.AskedPorts.{IsAsked, taken_of};
ghost use Rattle.host_ports.specs.CutPart.{HasCutPart};
ghost use Rattle.host_ports.specs.Health.{standing_of};
ghost use Rattle.host_ports.specs.HeldHosts.{StandsFor};
ghost use Rattle.host_ports.specs.Hosts.{Hosts, new_hosts, reporting, IsHeardStep, IsTickStep};
ghost use Rattle.host_ports.specs.HostTurns.{Asked, IsHostPart};
ghost use Rattle.host_ports.specs.SentSoFar.{octets_for};
ghost use Rattle.host_ports.specs.Sockets.{Poll, MayCome};

use crate::health::Standing;
use crate::host_parts::HostParts;
use crate::ports::{PollFault, Ports};
use crate::report_line::ReportLine;
use ax25_address::Call;
use ax25_frames::Modulus;
use channel_access::AirTick;
use link_machine::NewFault;
use station::{Config, HostEvent, Station};
use std::alloc::Global;
use std::marker::Model;
use std::mem;
use std::net::Net;
use tnc_base::OutOfMemory;

/// The station and its hosts. It stands for the hosts that the calls so far have made, until one of them answers want
/// of memory. Of what was appended for each connection a first part was sent, and the rest waits as long as it is
/// there.
#[derive(Drop)]
pub struct HostSide {
    alloc: Global,
    parts: HostParts,
    spent: bool,
}

impl Model for HostSide {
    ghost use Rattle.std.specs.Prelude.{◌≡◌, false};
    ghost use Rattle.host_ports.specs.HeldHosts.{HeldHosts, IsAtRest};

    ghost Value = { HeldHosts };

    ghost view = { λ s. record { parts = s.parts; spent = s.spent } };

    ghost invariant = { λ s. s.spent ≡ false → IsAtRest s.parts };
}

impl HostSide {
    /// A station that no host has joined. Refused as the station refuses its windows.
    pub fn new(alloc: Global, config: Config, seed: u64) -> Result<HostSide, NewFault>
        ensures stands_for { IfOk result (λ made. StandsFor made [] (new_hosts config seed)) }
        ensures bad_window { (window : ℕ) → IsErrOf result (NewFault.BadWindow window)
            ↔ IsRefusedWindow config.params window }
    {
        let station = match Station::new(alloc, config, seed) {
            Ok(station) => station,
            Err(fault) => return Err(fault),
        };
        Ok(HostSide {
            alloc,
            parts: HostParts {
                station,
                came: Vec::new(alloc),
                clients: Vec::new(alloc),
                untaken: Vec::new(alloc),
                report: Vec::new(alloc),
                to_shut: Vec::new(alloc),
                leaving: Vec::new(alloc),
            },
            spent: false,
        })
    }

    /// A frame of 15 to 1024 octets is heard. Fails only for want of memory, and is then spent.
    pub fn hear(&mut self, octets: &[u8]) -> Result<(), OutOfMemory>
        requires { HasFrameLength octets.now }
        ensures step { (hosts : Hosts) (printed : List ReportLine) → StandsFor self.old printed hosts
            → IfOk result (λ _.
            (next : Hosts) × IsHeardStep octets.now hosts next × StandsFor self.new printed next) }
        ensures spent { OnErr result (self.new.spent ≡ true) }
        ensures stays_spent { self.old.spent ≡ true → IsErr result }
    {
        if self.spent {
            return Err(OutOfMemory);
        }
        self.spent = true;
        self.parts.hear(octets)?;
        self.spent = false;
        Ok(())
    }

    /// A tick of 10 ms, and what is on the air in it. Fails only for want of memory, and is then spent.
    pub fn tick(&mut self, busy: bool) -> Result<AirTick, OutOfMemory>
        ensures step { (hosts : Hosts) (printed : List ReportLine) → StandsFor self.old printed hosts
            → IfOk result (λ air.
            (next : Hosts) × IsTickStep busy air hosts next × StandsFor self.new printed next) }
        ensures spent { OnErr result (self.new.spent ≡ true) }
        ensures stays_spent { self.old.spent ≡ true → IsErr result }
    {
        if self.spent {
            return Err(OutOfMemory);
        }
        self.spent = true;
        let air = self.parts.tick(busy)?;
        self.spent = false;
        Ok(air)
    }

    /// The part of a turn that is for hosts: polls once, with a wait of 10 ms, takes what waits and then what came, and
    /// offers each connection the rest of its front piece, once. A poll that fails counts as no events. The sockets are
    /// told of each connection that was shut since the last part. Fails only for want of memory, and is then spent; the
    /// part is cut short then, before the poll, after it, or between two connections.
    pub fn part<R: Net, N: Ports>(&mut self, rt: &R, ports: &mut N) -> Result<(), OutOfMemory>
        ensures part { (hosts : Hosts) (printed : List ReportLine) → StandsFor self.old printed hosts
            → IfOk result (λ _.
            (asked : Asked) × (next : Hosts) × IsHostPart asked hosts next × StandsFor self.new printed next
            × ((id : ℕ) → octets_for id next.sent ≡ octets_for id hosts.sent ++ taken_of id asked.offers)
            × IsAsked asked (N.told ports.old)
            (N.told ports.new)) }
        ensures cut { (hosts : Hosts) (printed : List ReportLine) → StandsFor self.old printed hosts
            → OnErr result (HasCutPart hosts
            (N.told ports.old)
            (N.told ports.new)) }
        ensures listens { (N.told ports.new).listens ≡ (N.told ports.old).listens }
        ensures dials { (N.told ports.new).dials ≡ (N.told ports.old).dials }
        ensures later { (N.told ports.old).faults ≤ (N.told ports.new).faults }
        ensures spent { OnErr result (self.new.spent ≡ true) }
        ensures stays_spent { self.old.spent ≡ true → IsErr result }
    {
        if self.spent {
            return Err(OutOfMemory);
        }
        self.spent = true;
        let paused = self.parts.paused(self.alloc)?;
        let events = polled(rt, self.alloc, ports, &paused)?;
        self.parts.try_untaken(self.alloc)?;
        self.parts.take_all(self.alloc, events)?;
        self.parts.offer_all(rt, self.alloc, ports)?;
        self.parts.shut_all(ports);
        self.spent = false;
        Ok(())
    }

    /// The modulus in which a frame between two calls is read for who watches the channel: that of the link from the
    /// first to the second, else of the link from the second to the first, and 8 if there is neither.
    pub fn modulus(&self, first: &Call, second: &Call) -> Modulus
        ensures { (hosts : Hosts) (printed : List ReportLine) → StandsFor self.now printed hosts
            → result ≡ modulus_between first.now second.now hosts.station.links }
    {
        self.parts.station.modulus(first, second)
    }

    /// What the report tells of the station as it is.
    pub fn standing(&self) -> Standing
        ensures { (hosts : Hosts) (printed : List ReportLine) → StandsFor self.now printed hosts
            → result ≡ standing_of hosts }
    {
        Standing {
            dropped: self.parts.station.dropped(),
            hosts: self.parts.clients.len() as u64,
            links: self.parts.station.links(),
        }
    }

    /// Adds a line to the report. Fails only for want of memory, and is then spent.
    pub fn note(&mut self, line: ReportLine) -> Result<(), OutOfMemory>
        ensures noted { (hosts : Hosts) (printed : List ReportLine) → StandsFor self.old printed hosts
            → OnOk result (StandsFor self.new printed (reporting line hosts)) }
        ensures spent { OnErr result (self.new.spent ≡ true) }
        ensures stays_spent { self.old.spent ≡ true → IsErr result }
    {
        if self.spent {
            return Err(OutOfMemory);
        }
        self.spent = true;
        self.parts.report.push(line)?;
        self.spent = false;
        Ok(())
    }

    /// The lines of the report that were not taken before, in order. Whoever takes them prints them.
    pub fn take_lines(&mut self) -> Vec<ReportLine>
        ensures taken { (hosts : Hosts) (printed : List ReportLine) → StandsFor self.old printed hosts
            → (hosts.report ≡ printed ++ result.items) × StandsFor self.new (printed ++ result.items) hosts }
        ensures same { self.new.spent ≡ self.old.spent }
    {
        mem::replace(&mut self.parts.report, Vec::new(self.alloc))
    }
}

/// How long a poll waits, in milliseconds.
const WAIT: u32 = 10;

/// The events of a poll. One that fails has none.
fn polled<R: Net, N: Ports>(
    rt: &R,
    alloc: Global,
    ports: &mut N,
    paused: &[u32],
) -> Result<Vec<HostEvent>, OutOfMemory>
    ensures events { IfOk result (λ events. All (MayCome paused.now) events.items) }
    ensures polled { (before : List Poll) → (N.told ports.old).polls ≡ Some before → IfOk result (λ events. (N.told ports.new).polls
        ≡ Some (before ++ (record { wait = 10; paused = paused.now; events = events.items }) ∷ [])) }
    ensures unpolled { OnErr result ((N.told ports.new).polls ≡ (N.told ports.old).polls) }
    ensures listens { (N.told ports.new).listens ≡ (N.told ports.old).listens }
    ensures dials { (N.told ports.new).dials ≡ (N.told ports.old).dials }
    ensures shut { (id : ℕ) → (N.told ports.new).is_shut id ≡ (N.told ports.old).is_shut id }
    ensures sent { (id : ℕ) → (N.told ports.new).sent id ≡ (N.told ports.old).sent id }
    ensures sends { (N.told ports.new).sends ≡ (N.told ports.old).sends }
    ensures later { (N.told ports.old).faults ≤ (N.told ports.new).faults }
{
    match ports.poll(rt, WAIT, paused) {
        Ok(events) => Ok(events),
        Err(PollFault::Failed) => Ok(Vec::new(alloc)),
        Err(PollFault::Memory) => Err(OutOfMemory),
    }
}
