//! A link of a station.

ghost use Rattle.std.specs.Prelude.{◌≡◌, ◌↔◌, IsTrue, Some, None};

use ax25_address::Call;
use link_machine::{Link, LinkState};

/// A link between a call of the station and another, and the connection that is told of it.
#[derive(Drop)]
pub struct OwnedLink {
    /// The call of this side.
    pub local: Call,
    /// The call of the other side.
    pub remote: Call,
    /// None once the connection has left.
    pub owner: Option<u32>,
    /// The PID of its data whose own PID is 0.
    pub pid: u8,
    /// The link.
    pub machine: Link,
}

/// The most packets that a link of a connection holds for more to be taken.
const MOST_HELD: usize = 512;

impl OwnedLink {
    ghost use Rattle.station.specs.HasFew.{HasFew};
    ghost use Rattle.station.specs.HeldLinks.{is_held_between};
    ghost use Rattle.station.specs.LinkEvents.{is_idle};
    ghost use Rattle.station.specs.Registrations.{is_number};
    ghost use Rattle.station.specs.Links.{Link as Owned};
    ghost use Rattle.station.specs.StandsFor.{StandsForLink};
    ghost use Rattle.link_machine.specs.Wants.{wants};

    /// Whether it is another connection's, or holds few packets.
    pub(crate) fn has_few(&self, id: u32) -> bool
        ensures { IsTrue result ↔ HasFew id self.now }
    {
        self.owner != Some(id) || self.machine.pending() <= MOST_HELD
    }

    /// It has no owner any more.
    pub(crate) fn disown(&mut self)
        ensures { self.new ≡ record self.old { owner = None } }
    {
        self.owner = None;
    }

    /// Whether it is a connection's.
    pub(crate) fn is_of(&self, id: u32) -> bool
        ensures { result ≡ is_number id self.now.owner }
    {
        match self.owner {
            Some(owner) => owner == id,
            None => false,
        }
    }

    /// Whether it is the link between two calls.
    pub(crate) fn is_between(&self, local: &Call, remote: &Call) -> bool
        ensures { result ≡ is_held_between local.now remote.now (Some self.now) }
    {
        self.local == *local && self.remote == *remote
    }

    /// Whether it wants to send.
    pub(crate) fn wants(&self) -> bool
        ensures { (link : Owned) → StandsForLink self.now link → result ≡ wants link.machine }
    {
        self.machine.wants()
    }

    /// Whether there is no link any more.
    pub(crate) fn is_idle(&self) -> bool
        ensures { result ≡ is_idle self.now.machine.control.state }
    {
        match self.machine.state() {
            LinkState::Idle => true,
            LinkState::Calling | LinkState::Up | LinkState::Releasing => false,
        }
    }
}
