//! Whose the frames are that wait to be sent.
ghost use Rattle.std.specs.Prelude.{◌≡◌, ◌<◌, ◌≤◌, ◌&&◌, cond, nat_lt, true, length, count_by, is_some};
ghost use Rattle.station.specs.Connections.{connection_of};
ghost use Rattle.station.specs.Owners.{has_left, is_of, left_waiting, most_own, own_waiting};
ghost use Rattle.station.specs.StandsFor.{AreParts};
ghost use Rattle.station.specs.State.{StationState};
ghost use Rattle.station.specs.Turn.{may_enter};

use crate::parts::Parts;

/// So many frames of its own a connection has room for.
pub(crate) const MOST_OWN: usize = 4;

/// A frame that no connection gave is dropped if so many wait to be sent.
const CAPACITY: usize = 256;

/// The places of the queue. They are never all taken, since no more than 256 frames are of connections.
const PLACES: usize = 512;

/// How many frames of a connection wait.
pub(crate) fn own_waiting(owners: &[Option<u32>], id: u32) -> usize
    ensures { result ≡ own_waiting id owners.now }
{
    owners.iter().filter(|owner| is_of(**owner, id)).count()
}

/// One if it is so, and else none.
fn one_if(so: bool) -> usize
    ensures one { result ≡ cond so 1 0 }
    ensures most { result ≤ 1 }
{
    if so { 1 } else { 0 }
}

/// Whether a frame is of the connection.
fn is_of(owner: Option<u32>, id: u32) -> bool
    ensures { result ≡ is_of id owner }
{
    owner == Some(id)
}

impl Parts {
    /// Whether there is room for a frame of a connection, or for one that none gave.
    pub(crate) fn may_enter(&self, owner: Option<u32>) -> bool
        ensures may { (s : StationState) → AreParts self.now s → result ≡ may_enter owner s }
        ensures room { result ≡ true → length self.now.channel.waiting < 512 }
    {
        match owner {
            Some(id) => self.may_give(id),
            None => self.channel.len() < CAPACITY,
        }
    }

    /// Whether there is room for a frame of a connection.
    fn may_give(&self, id: u32) -> bool
        ensures may { (s : StationState) → AreParts self.now s → result
            ≡ (is_some (connection_of id s.connections)
            && (nat_lt (own_waiting id s.owners) most_own && nat_lt (length s.channel.waiting) 512)) }
        ensures room { result ≡ true → length self.now.channel.waiting < 512 }
    {
        self.is_there(id) && own_waiting(&self.owners, id) < MOST_OWN && self.channel.len() < PLACES
    }

    /// How many frames wait of connections that have left.
    pub(crate) fn left_waiting(&self) -> usize
        ensures { (s : StationState) → AreParts self.now s → result ≡ left_waiting s.connections s.owners }
    {
        let mut count = 0;
        for owner in &self.owners {
            count += one_if(self.has_left(*owner));
        }
        count
    }

    /// Whether a connection has the id.
    fn is_there(&self, id: u32) -> bool
        ensures { (s : StationState) → AreParts self.now s → result ≡ is_some (connection_of id s.connections) }
    {
        match self.place_of(id) {
            Some(_) => true,
            None => false,
        }
    }

    /// Whether the connection of a frame has left.
    fn has_left(&self, owner: Option<u32>) -> bool
        ensures { (s : StationState) → AreParts self.now s → result ≡ has_left s.connections owner }
    {
        match owner {
            Some(id) => !self.is_there(id),
            None => false,
        }
    }
}
