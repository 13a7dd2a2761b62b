//! What is sent to connections in a turn: each is offered the rest of one piece.
ghost use Rattle.std.specs.Prelude.{◌≡◌, ◌≤◌, ℕ, List, [], ◌++◌, IfOk, OnOk, OnErr};
ghost use Rattle.host_ports.specs.declared.report_line.ReportLine.{ReportLine};
ghost use Rattle.host_ports.specs.AskedPorts.{AreOffered, AreShut};
ghost use Rattle.host_ports.specs.Sockets.{PortsTold};
ghost use Rattle.host_ports.specs.HeldHosts.{AreParts, IsAtRest};
ghost use Rattle.host_ports.specs.Hosts.{Hosts};
ghost use Rattle.host_ports.specs.HostTurns.{Offer, Offering, IsOffered, InOrder, ids_of_clients};

use crate::clients::place_of;
use crate::host_parts::HostParts;
use crate::ports::Ports;
use crate::sending::{OfferFault, offer};
use std::alloc::Global;
use std::net::Net;
use tnc_base::OutOfMemory;

impl HostParts {
    /// Each connection for which something waits is offered the rest of its front piece, once.
    pub(crate) fn offer_all<R: Net, N: Ports>(
        &mut self,
        rt: &R,
        alloc: Global,
        ports: &mut N,
    ) -> Result<(), OutOfMemory>
        requires rest { IsAtRest self.old }
        ensures offers { (printed : List ReportLine) (hosts : Hosts) → AreParts self.old printed hosts
            → OnOk result ((next : Offering)
            × InOrder IsOffered (ids_of_clients hosts.clients) (record { hosts = hosts; offers = []; failed = [] }) next
            × AreParts self.new printed next.hosts
            × AreOffered next.offers next.failed (N.told ports.old)
            (N.told ports.new)) }
        ensures cut { (printed : List ReportLine) (hosts : Hosts) → AreParts self.old printed hosts
            → OnErr result ((first others : List ℕ) × (next : Offering) × (ids_of_clients hosts.clients ≡ first ++ others)
            × InOrder IsOffered first (record { hosts = hosts; offers = []; failed = [] }) next
            × AreOffered next.offers next.failed (N.told ports.old)
            (N.told ports.new)) }
        ensures rest { OnOk result (IsAtRest self.new) }
        ensures listens { (N.told ports.new).listens ≡ (N.told ports.old).listens }
        ensures dials { (N.told ports.new).dials ≡ (N.told ports.old).dials }
        ensures later { (N.told ports.old).faults ≤ (N.told ports.new).faults }
    {
        let ids = self.ids(alloc)?;
        for id in &ids {
            self.offer_to(rt, alloc, ports, *id)?;
        }
        Ok(())
    }

    /// The connections that are there.
    fn ids(&self, alloc: Global) -> Result<Vec<u32>, OutOfMemory>
        ensures { IfOk result (λ ids. ids.items ≡ ids_of_clients self.now.clients.items) }
    {
        let mut ids = Vec::new(alloc);
        for client in &self.clients {
            ids.push(client.id)?;
        }
        Ok(ids)
    }

    /// A connection for which something waits is offered the rest of its front piece, or is shut if its send fails.
    fn offer_to<R: Net, N: Ports>(
        &mut self,
        rt: &R,
        alloc: Global,
        ports: &mut N,
        id: u32,
    ) -> Result<(), OutOfMemory>
        requires rest { IsAtRest self.old }
        ensures offers { (printed : List ReportLine) (before : Offering) (start : PortsTold)
            → AreParts self.old printed before.hosts
            → AreOffered before.offers before.failed start (N.told ports.old)
            → OnOk result ((next : Offering) × IsOffered id before next × AreParts self.new printed next.hosts
            × AreOffered next.offers next.failed start (N.told ports.new)) }
        ensures cut { (offers : List Offer) (failing : List ℕ) (start : PortsTold)
            → AreOffered offers failing start (N.told ports.old)
            → OnErr result (AreOffered offers failing start
            (N.told ports.new)) }
        ensures rest { OnOk result (IsAtRest self.new) }
        ensures listens { (N.told ports.new).listens ≡ (N.told ports.old).listens }
        ensures dials { (N.told ports.new).dials ≡ (N.told ports.old).dials }
        ensures later { (N.told ports.old).faults ≤ (N.told ports.new).faults }
    {
        let Some(at) = place_of(id, &self.clients) else {
            return Ok(());
        };
        if self.clients[at].waiting.is_empty() {
            return Ok(());
        }
        match offer(rt, alloc, ports, id, &mut self.clients[at].waiting) {
            Ok(_) => Ok(()),
            Err(OfferFault::Failed) => self.cut_off(id),
            Err(OfferFault::Memory) => Err(OutOfMemory),
        }
    }

    /// The sockets are told of each connection that was shut.
    pub(crate) fn shut_all<N: Ports>(&mut self, ports: &mut N)
        ensures parts { (printed : List ReportLine) (hosts : Hosts) → AreParts self.old printed hosts
            → AreParts self.new printed (record hosts { to_shut = [] }) }
        ensures shut { AreShut self.old.to_shut.items (N.told ports.old)
            (N.told ports.new) }
        ensures rest { IsAtRest self.old → IsAtRest self.new }
        ensures listens { (N.told ports.new).listens ≡ (N.told ports.old).listens }
        ensures dials { (N.told ports.new).dials ≡ (N.told ports.old).dials }
    {
        tell_shut(&self.to_shut, ports);
        self.to_shut.clear();
    }
}

fn tell_shut<N: Ports>(ids: &[u32], ports: &mut N)
    ensures shut { AreShut ids.now (N.told ports.old)
        (N.told ports.new) }
    ensures listens { (N.told ports.new).listens ≡ (N.told ports.old).listens }
    ensures dials { (N.told ports.new).dials ≡ (N.told ports.old).dials }
{
    for id in ids {
        ports.shut(*id);
    }
}
