//! The events of one link of a station.
ghost use Rattle.std.specs.Prelude.{◌≡◌, true, All, IfOk, OnOk, OnErr, Some};
ghost use Rattle.station.specs.LinkRequests.{event_of, HasNumbers, stepped_link, nothing_done, Passes};
ghost use Rattle.station.specs.Links.{Link};
ghost use Rattle.station.specs.StandsFor.{StandsForLink};
ghost use Rattle.link_machine.specs.Sent.{IsWritable};
ghost use Rattle.link_machine.specs.Step.{step, done_of};

use crate::memory::Memory;
use crate::owned_link::OwnedLink;
use ax25_frames::Frame;
use link_machine::{Acts, LinkFault};
use selective_reject::Packet;
use std::alloc::Global;
use tnc_base::OutOfMemory;

/// What happens to a link.
#[derive(Drop)]
pub enum LinkEvent {
    /// It is called.
    Connect,
    /// It is given a packet.
    Send(Packet),
    /// It is asked to end.
    Disconnect,
    /// A frame of the other station is heard.
    Hear(Frame),
    /// A tick passes, and whether T1 stands still in it.
    Tick(bool),
    /// The channel takes a frame of it: whether the transmission ends with it, and whether both sides may send at once.
    Seize(bool, bool),
}

impl OwnedLink {
    /// The event of the link. One that the link refuses does nothing.
    pub(crate) fn take(
        &mut self,
        memory: &mut Memory,
        event: LinkEvent,
    ) -> Result<Acts, OutOfMemory>
        requires { HasNumbers event (Some self.old) }
        ensures acts { (link : Link) → StandsForLink self.old link
            → IfOk result (λ acts. acts ≡ done_of (step link.machine (event_of event))) }
        ensures stands_for { (link : Link) → StandsForLink self.old link
            → OnOk result (StandsForLink self.new (stepped_link (event_of event) link)) }
        ensures writable { IfOk result (λ acts. All IsWritable acts.frames) }
        ensures wanted { OnErr result (memory.new.refused ≡ true) }
    {
        let alloc = memory.alloc();
        match event {
            LinkEvent::Connect => memory.took(unless_refused(alloc, self.machine.connect())),
            LinkEvent::Send(packet) => {
                memory.took(unless_refused(alloc, self.machine.send(packet)))
            }
            LinkEvent::Disconnect => memory.took(unless_refused(alloc, self.machine.disconnect())),
            LinkEvent::Hear(frame) => memory.took(self.machine.frame(&frame)),
            LinkEvent::Tick(still) => memory.took(self.machine.tick(still)),
            LinkEvent::Seize(last, full) => memory.took(self.machine.seize(last, full)),
        }
    }
}

/// What a link did, which is nothing if it refused.
fn unless_refused(alloc: Global, answer: Result<Acts, LinkFault>) -> Result<Acts, OutOfMemory>
    ensures { Passes answer result }
{
    match answer {
        Ok(acts) => Ok(acts),
        Err(LinkFault::Memory) => Err(OutOfMemory),
        Err(_) => Ok(no_acts(alloc)),
    }
}

/// Nothing sent and nothing told.
pub(crate) fn no_acts(alloc: Global) -> Acts
    ensures { result ≡ nothing_done }
{
    Acts {
        frames: Vec::new(alloc),
        told: Vec::new(alloc),
    }
}
