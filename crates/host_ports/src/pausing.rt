//! Whose octets have to wait.
ghost use Rattle.std.specs.Prelude.{◌≡◌, ℕ, ◌↔◌, false, List, IfOk, IsTrue};
ghost use Rattle.std.specs.List.{list_any};
ghost use Rattle.station.specs.Held.{Takes};
ghost use Rattle.host_ports.specs.declared.report_line.ReportLine.{ReportLine};
ghost use Rattle.host_ports.specs.HeldHosts.{AreParts, AreWaiting};
ghost use Rattle.host_ports.specs.Hosts.{Hosts};
ghost use Rattle.host_ports.specs.HostTurns.{is_from, HasToWait, ArePaused};

use crate::host_parts::HostParts;
use crate::untaken::Untaken;
use std::alloc::Global;
use tnc_base::OutOfMemory;

/// Whether octets of the connection are among these.
fn has_untaken(id: u32, untaken: &[Untaken]) -> bool
    ensures { result ≡ list_any (is_from id) untaken.now }
{
    for one in untaken {
        if one.id == id {
            return true;
        }
    }
    false
}

impl HostParts {
    /// Whether octets of the connection have to wait: earlier ones wait, or the station does not accept them.
    pub(crate) fn has_to_wait(&self, id: u32) -> bool
        ensures waits { (printed : List ReportLine) (hosts : Hosts) → AreParts self.now printed hosts
            → IsTrue result ↔ HasToWait id hosts }
        ensures takes { result ≡ false → Takes id self.now.station }
    {
        has_untaken(id, &self.untaken) || !self.station.accepts(id)
    }

    /// The connections that a poll pauses, rising.
    pub(crate) fn paused(&self, alloc: Global) -> Result<Vec<u32>, OutOfMemory>
        ensures paused { (printed : List ReportLine) (hosts : Hosts) → AreParts self.now printed hosts
            → IfOk result (λ ids. ArePaused hosts ids.items) }
    {
        let mut ids = self.waiting_ids(alloc)?;
        ids.sort()?;
        ids.dedup();
        Ok(ids)
    }

    /// The connections whose octets have to wait, in the order in which they joined.
    fn waiting_ids(&self, alloc: Global) -> Result<Vec<u32>, OutOfMemory>
        ensures waiting { (printed : List ReportLine) (hosts : Hosts) → AreParts self.now printed hosts
            → IfOk result (λ ids. AreWaiting ids.items hosts) }
    {
        let mut ids = Vec::new(alloc);
        for client in &self.clients {
            if self.has_to_wait(client.id) {
                ids.push(client.id)?;
            }
        }
        Ok(ids)
    }
}
