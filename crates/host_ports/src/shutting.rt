//! Connections that go.
ghost use Rattle.std.specs.Prelude.{◌≡◌, ◌≤◌, ◌+◌, ◌==◌, not, filter, false, true, OnOk};
ghost use Rattle.std.specs.List.{list_any};
ghost use Rattle.host_ports.specs.HeldHosts.{Moves, Narrows, is_named, weight};
ghost use Rattle.host_ports.specs.Hosts.{without, closing, cutting, is_client_of, is_among};

use crate::client::Client;
use crate::host_parts::HostParts;
use crate::report_line::ReportLine;
use crate::untaken::Untaken;
use tnc_base::OutOfMemory;

impl HostParts {
    /// Nothing of the connection is left.
    pub(crate) fn forget(&mut self, id: u32)
        ensures moves { Moves (without id) self.old self.new }
        ensures narrows { Narrows self.old self.new }
        ensures gone { is_named id self.new ≡ false }
        ensures one_less { is_among id self.old.leaving.items ≡ true → weight self.new + 1 ≤ weight self.old }
        ensures two_less { list_any (is_client_of id) self.old.clients.items ≡ true
            → weight self.new + 2 ≤ weight self.old }
    {
        remove_client(id, &mut self.clients);
        remove_untaken(id, &mut self.untaken);
        remove_id(id, &mut self.leaving);
    }

    /// The connection is shut because a step closes it.
    pub(crate) fn close(&mut self, id: u32) -> Result<(), OutOfMemory>
        ensures moves { OnOk result (Moves (closing id) self.old self.new) }
        ensures narrows { OnOk result (Narrows self.old self.new) }
        ensures gone { OnOk result (is_named id self.new ≡ false) }
        ensures two_less { list_any (is_client_of id) self.old.clients.items ≡ true
            → OnOk result (weight self.new + 2 ≤ weight self.old) }
    {
        self.forget(id);
        self.to_shut.push(id)?;
        self.report.push(ReportLine::ClosedLine { id })?;
        Ok(())
    }

    /// A connection that is there is shut because its octets do not fit or its send failed.
    pub(crate) fn cut(&mut self, id: u32) -> Result<(), OutOfMemory>
        requires there { list_any (is_client_of id) self.old.clients.items ≡ true }
        ensures moves { OnOk result (Moves (cutting id) self.old self.new) }
        ensures narrows { OnOk result (Narrows self.old self.new) }
    {
        self.close(id)?;
        self.leaving.push(id)?;
        Ok(())
    }
}

fn remove_client(id: u32, clients: &mut Vec<Client>)
    ensures { clients.new.items ≡ filter (λ client. not (client.id == id)) clients.old.items }
{
    clients.retain(|client| client.id != id);
}

fn remove_untaken(id: u32, untaken: &mut Vec<Untaken>)
    ensures { untaken.new.items ≡ filter (λ one. not (one.id == id)) untaken.old.items }
{
    untaken.retain(|one| one.id != id);
}

fn remove_id(id: u32, ids: &mut Vec<u32>)
    ensures { ids.new.items ≡ filter (λ other. not (other == id)) ids.old.items }
{
    ids.retain(|other| *other != id);
}
