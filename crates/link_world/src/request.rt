//! What a link is asked.
ghost use Rattle.std.specs.Prelude.{◌≡◌, ◌⊎◌, Err, Some, IfOk, IfErr, OnOk, OnErr};
ghost use Rattle.link_machine.specs.Machine.{Machine as State};
ghost use Rattle.link_machine.specs.StandsFor.{StandsFor};
ghost use Rattle.link_machine.specs.Asks.{asks};
ghost use Rattle.link_machine.specs.Step.{step, done_of, refusal_of};
ghost use Rattle.link_machine.specs.declared.fault.LinkFault.{LinkFault as AnyFault};
ghost use Rattle.link_world.specs.Held.{seen_of};

use link_machine::{Acts, Link, LinkFault};
use selective_reject::Packet;

/// A request of the layer above, a tick, or a frame for the channel.
#[derive(Drop)]
pub(crate) enum Request {
    Connect,
    Send(Packet),
    Disconnect,
    /// The flag says that T1 stands still.
    Tick(bool),
    /// The flags say that the transmission ends with the frame, and that both sides may send at once.
    Seize(bool, bool),
}

impl Request {
    /// Why a link would refuse it, memory apart. It takes none.
    pub(crate) fn refusal(&self, link: &Link) -> Option<LinkFault>
        ensures { (m : State) → StandsFor link.now m → result ≡ refusal_of m (seen_of self.now) }
    {
        match self {
            Request::Connect => link.connect_refusal(),
            Request::Send(packet) => link.send_refusal(packet),
            Request::Disconnect => link.disconnect_refusal(),
            Request::Tick(_) | Request::Seize(..) => None,
        }
    }

    /// Whether it makes a link send SABM, SABME or DISC, memory apart. It takes none.
    pub(crate) fn asks(&self, link: &Link) -> bool
        ensures { (m : State) → StandsFor link.now m → result ≡ asks m (seen_of self.now) }
    {
        match self {
            Request::Connect => link.connect_asks(),
            Request::Send(_) => false,
            Request::Disconnect => link.disconnect_asks(),
            Request::Tick(still) => link.tick_asks(*still),
            Request::Seize(..) => link.seize_asks(),
        }
    }

    /// Asks a link. One that refuses is as it was.
    pub(crate) fn ask(self, link: &mut Link) -> Result<Acts, LinkFault>
        ensures step { (m : State) → StandsFor link.old m
            → IfOk result (λ acts. acts ≡ done_of (step m (seen_of self))) }
        ensures stands_for { (m : State) → StandsFor link.old m
            → OnOk result (StandsFor link.new (step m (seen_of self)).now) }
        ensures refused { (m : State) (fault : AnyFault) → StandsFor link.old m
            → refusal_of m (seen_of self) ≡ Some fault → result ≡ Err fault }
        ensures fault { (m : State) → StandsFor link.old m
            → IfErr result (λ fault. (fault ≡ LinkFault.Memory) ⊎ (refusal_of m (seen_of self) ≡ Some fault)) }
        ensures unchanged { OnErr result (link.new ≡ link.old) }
    {
        match self {
            Request::Connect => link.connect(),
            Request::Send(packet) => link.send(packet),
            Request::Disconnect => link.disconnect(),
            Request::Tick(waiting) => Ok(link.tick(waiting)?),
            Request::Seize(last, full) => Ok(link.seize(last, full)?),
        }
    }
}
