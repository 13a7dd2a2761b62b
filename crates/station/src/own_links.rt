//! The link that a message of a connection speaks of.
ghost use Rattle.std.specs.Prelude.{◌≡◌, [], Some};
ghost use Rattle.station.specs.AgwRequests.{data_pid, is_owner, key_of_route, own_key};
ghost use Rattle.station.specs.Links.{Links, link_at};
ghost use Rattle.station.specs.Routes.{route_in};
ghost use Rattle.station.specs.StandsFor.{StandsForLinks};

use crate::call_fields::call_in;
use crate::link_table::LinkTable;
use crate::new_links::pid_or;
use agwpe_port::AgwMessage;

impl LinkTable {
    /// The key of the link between the calls of a message, whoever owns it.
    pub(crate) fn key_of(&self, message: &AgwMessage) -> Option<u32>
        ensures { (links : Links) → StandsForLinks self.now links
            → result ≡ key_of_route (route_in message.now.from message.now.to (Some [])) links }
    {
        let Some(local) = call_in(&message.from) else {
            return None;
        };
        let Some(remote) = call_in(&message.to) else {
            return None;
        };
        self.key_between(&local, &remote)
    }

    /// The same, if the link is the connection's.
    pub(crate) fn own_key(&self, id: u32, message: &AgwMessage) -> Option<u32>
        ensures { (links : Links) → StandsForLinks self.now links → result ≡ own_key id message.now links }
    {
        let Some(key) = self.key_of(message) else {
            return None;
        };
        if self.is_of(key, id) { Some(key) } else { None }
    }

    /// Whether the link of a key is the connection's.
    fn is_of(&self, key: u32, id: u32) -> bool
        ensures { (links : Links) → StandsForLinks self.now links → result ≡ is_owner id (link_at key links) }
    {
        match self.get(key) {
            Some(link) => link.is_of(id),
            None => false,
        }
    }

    /// The PID of data for the link of a key: its own, or the link's if that is 0.
    pub(crate) fn data_pid(&self, key: u32, pid: u8) -> u8
        ensures { (links : Links) → StandsForLinks self.now links → result ≡ data_pid pid (link_at key links) }
    {
        match self.get(key) {
            Some(link) => pid_or(link.pid, pid),
            None => pid,
        }
    }
}
