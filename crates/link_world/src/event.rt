//! What happens to two links.
ghost use Rattle.std.specs.Prelude.{◌≡◌};

use crate::end::End;
use selective_reject::Packet;

/// What happens to one of the two ends.
#[derive(Debug, Drop)]
pub enum Event {
    /// It calls the other.
    Connect(End),
    /// It is given a packet of at most 256 octets, to be sent.
    Send(End, Packet),
    /// It is asked to release the link.
    Disconnect(End),
    /// A tick of 10 ms passes for it; the flag says that T1 stands still in it.
    Tick(End, bool),
    /// The channel takes a frame of it, if it wants to send; the flags say that the transmission ends with that frame,
    /// and that both sides may send at once.
    Seize(End, bool, bool),
    /// It hears the frame at the front of those in flight towards it.
    Hear(End),
    /// The frame with this index, counted from 0, of those in flight towards it is lost.
    Lose(End, usize),
}

impl Event {
    ghost use Rattle.link_world.specs.World.{end_of};

    /// The end to which it happens.
    pub(crate) fn end(&self) -> End
        ensures { result ≡ end_of self.now }
    {
        match self {
            Event::Connect(end)
            | Event::Send(end, _)
            | Event::Disconnect(end)
            | Event::Tick(end, _)
            | Event::Seize(end, _, _)
            | Event::Hear(end)
            | Event::Lose(end, _) => *end,
        }
    }
}
