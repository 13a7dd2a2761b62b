//! An event of a link within its station: what it sends is queued, and what it tells goes to its owner.
ghost use Rattle.std.specs.Prelude.{◌≡◌, true, All, OnOk, OnErr};
ghost use Rattle.link_machine.specs.Sent.{IsWritable};
ghost use Rattle.station.specs.LinkEvents.{event_at, queueing_frames, telling_one, telling_to};
ghost use Rattle.station.specs.Held.{ids_in};
ghost use Rattle.station.specs.LinkRequests.{event_of, HasNumbers};
ghost use Rattle.station.specs.StandsFor.{Shows};
ghost use Rattle.station.specs.TableSteps.{place_at};
ghost use Rattle.station.specs.Turn.{Turn};

use crate::frames::written;
use crate::host_out::HostOut;
use crate::link_event::LinkEvent;
use crate::memory::Memory;
use crate::messages::told_message;
use crate::parts::Parts;
use ax25_address::Call;
use link_machine::{SentFrame, Told};
use tnc_base::OutOfMemory;

impl Parts {
    /// The event of the link that a key has. A link that is idle then is removed.
    pub(crate) fn link_event(
        &mut self,
        memory: &mut Memory,
        out: &mut HostOut,
        key: u32,
        event: LinkEvent,
    ) -> Result<(), OutOfMemory>
        requires { HasNumbers event (place_at key self.old.links) }
        ensures shows { (turn : Turn) → Shows self.old out.old turn
            → OnOk result (Shows self.new out.new (event_at key (event_of event) turn)) }
        ensures ids { OnOk result (ids_in self.new ≡ ids_in self.old) }
        ensures closed { OnOk result (out.new.closed ≡ out.old.closed) }
        ensures wanted { OnErr result (memory.new.refused ≡ true) }
    {
        let Some(link) = self.links.get(key) else {
            return Ok(());
        };
        let owner = link.owner;
        let local = link.local;
        let remote = link.remote;
        let acts = self.links.take(memory, key, event)?;
        self.links.settle(key);
        self.queue_frames(memory, out, key, &acts.frames)?;
        self.tell(memory, out, owner, &local, &remote, &acts.told)?;
        Ok(())
    }

    /// Queues the frames of a link.
    fn queue_frames(
        &mut self,
        memory: &mut Memory,
        out: &mut HostOut,
        key: u32,
        frames: &[SentFrame],
    ) -> Result<(), OutOfMemory>
        requires { All IsWritable frames.now }
        ensures shows { (turn : Turn) → Shows self.old out.old turn
            → OnOk result (Shows self.new out.new (queueing_frames key frames.now turn)) }
        ensures ids { OnOk result (ids_in self.new ≡ ids_in self.old) }
        ensures closed { OnOk result (out.new.closed ≡ out.old.closed) }
        ensures wanted { OnErr result (memory.new.refused ≡ true) }
    {
        for sent in frames {
            let octets = written(memory, &sent.frame, sent.modulus)?;
            self.queue(memory, out, Some(key), octets)?;
        }
        Ok(())
    }

    /// Tells the owner of a link.
    fn tell(
        &self,
        memory: &mut Memory,
        out: &mut HostOut,
        owner: Option<u32>,
        local: &Call,
        remote: &Call,
        told: &[Told],
    ) -> Result<(), OutOfMemory>
        ensures shows { (turn : Turn) → Shows self.now out.old turn
            → OnOk result (Shows self.now out.new (telling_to owner local.now remote.now told.now turn)) }
        ensures closed { OnOk result (out.new.closed ≡ out.old.closed) }
        ensures wanted { OnErr result (memory.new.refused ≡ true) }
    {
        for item in told {
            self.tell_one(memory, out, owner, local, remote, item)?;
        }
        Ok(())
    }

    fn tell_one(
        &self,
        memory: &mut Memory,
        out: &mut HostOut,
        owner: Option<u32>,
        local: &Call,
        remote: &Call,
        told: &Told,
    ) -> Result<(), OutOfMemory>
        ensures shows { (turn : Turn) → Shows self.now out.old turn
            → OnOk result (Shows self.now out.new (telling_one owner local.now remote.now told.now turn)) }
        ensures closed { OnOk result (out.new.closed ≡ out.old.closed) }
        ensures wanted { OnErr result (memory.new.refused ≡ true) }
    {
        let Some(id) = owner else {
            return Ok(());
        };
        let octets = told_message(memory, local, remote, told)?;
        out.send(memory, id, octets)?;
        Ok(())
    }
}
