//! What KISS asks of a station.
ghost use Rattle.std.specs.Prelude.{◌≡◌, ◌↔◌, IsTrue, OnOk, true, OnErr};
ghost use Rattle.channel_access.specs.Channel.{Channel, with_setting};
ghost use Rattle.channel_access.specs.StandsFor.{StandsFor as StandsForChannel};
ghost use Rattle.station.specs.AgwRequests.{queueing_raw};
ghost use Rattle.hdlc_framer.specs.FrameLength.{has_frame_length};
ghost use Rattle.station.specs.Held.{ids_in};
ghost use Rattle.station.specs.Kiss.{heeding, heeding_all, param_of, queueing_asked, with_param};
ghost use Rattle.station.specs.StandsFor.{Shows};
ghost use Rattle.station.specs.Turn.{Out, Turn, changing};

use crate::asker::Asker;
use crate::host_out::HostOut;
use crate::memory::Memory;
use crate::parts::Parts;
use channel_access::Param;
use hdlc_framer::has_frame_length;
use kiss_port::KissItem;
use tnc_base::{Octets, OutOfMemory};

impl Parts {
    /// What the items of a connection ask, one after another.
    pub(crate) fn heed_all(
        &mut self,
        memory: &mut Memory,
        out: &mut HostOut,
        id: u32,
        items: &[KissItem],
    ) -> Result<(), OutOfMemory>
        ensures shows { (turn : Turn) → Shows self.old out.old turn
            → OnOk result (Shows self.new out.new (heeding_all id items.now turn)) }
        ensures ids { OnOk result (ids_in self.new ≡ ids_in self.old) }
        ensures closed { OnOk result (out.new.closed ≡ out.old.closed) }
        ensures wanted { OnErr result (memory.new.refused ≡ true) }
    {
        for item in items {
            self.heed(memory, out, id, item)?;
        }
        Ok(())
    }

    /// What an item asks. All but frames and parameters of port 0 is passed over.
    fn heed(
        &mut self,
        memory: &mut Memory,
        out: &mut HostOut,
        id: u32,
        item: &KissItem,
    ) -> Result<(), OutOfMemory>
        ensures shows { (turn : Turn) → Shows self.old out.old turn
            → OnOk result (Shows self.new out.new (heeding id item.now turn)) }
        ensures ids { OnOk result (ids_in self.new ≡ ids_in self.old) }
        ensures closed { OnOk result (out.new.closed ≡ out.old.closed) }
        ensures wanted { OnErr result (memory.new.refused ≡ true) }
    {
        match item {
            KissItem::Frame { port, octets } => {
                if *port != 0 {
                    return Ok(());
                }
                self.queue_raw(memory, out, id, octets.as_slice())
            }
            KissItem::AckFrame { port, mark, octets } => {
                if *port != 0 {
                    return Ok(());
                }
                self.queue_asked(memory, out, Asker { id, mark: *mark }, octets.as_slice())
            }
            KissItem::Set {
                port,
                command,
                value,
            } => {
                if *port == 0 {
                    self.set(param_of(*command, *value));
                }
                Ok(())
            }
            KissItem::Hardware { .. }
            | KissItem::Return
            | KissItem::TooLong { .. }
            | KissItem::Other { .. } => Ok(()),
        }
    }

    /// Queues octets of a host if they have the length of a frame.
    pub(crate) fn queue_raw(
        &mut self,
        memory: &mut Memory,
        out: &mut HostOut,
        id: u32,
        octets: &[u8],
    ) -> Result<(), OutOfMemory>
        ensures shows { (turn : Turn) → Shows self.old out.old turn
            → OnOk result (Shows self.new out.new (queueing_raw id octets.now turn)) }
        ensures ids { OnOk result (ids_in self.new ≡ ids_in self.old) }
        ensures closed { OnOk result (out.new.closed ≡ out.old.closed) }
        ensures wanted { OnErr result (memory.new.refused ≡ true) }
    {
        if !has_frame_length(octets) {
            return Ok(());
        }
        let frame = memory.copy(octets)?;
        self.queue_for(memory, out, Some(id), None, None, frame)
    }

    /// Queues octets of a host, which is told when they have been sent, if they have the length of a frame.
    fn queue_asked(
        &mut self,
        memory: &mut Memory,
        out: &mut HostOut,
        asker: Asker,
        octets: &[u8],
    ) -> Result<(), OutOfMemory>
        ensures shows { (turn : Turn) → Shows self.old out.old turn
            → OnOk result (Shows self.new out.new (queueing_asked asker.id asker.mark octets.now turn)) }
        ensures ids { OnOk result (ids_in self.new ≡ ids_in self.old) }
        ensures closed { OnOk result (out.new.closed ≡ out.old.closed) }
        ensures wanted { OnErr result (memory.new.refused ≡ true) }
    {
        if !has_frame_length(octets) {
            return Ok(());
        }
        let frame = memory.copy(octets)?;
        self.queue_for(memory, out, Some(asker.id), Some(asker), None, frame)
    }

    /// Sets a parameter of the channel.
    fn set(&mut self, param: Param)
        ensures shows { (out : Out) (turn : Turn) → Shows self.old out turn
            → Shows self.new out (changing (with_param param) turn) }
        ensures ids { ids_in self.new ≡ ids_in self.old }
    {
        self.channel.set(param);
    }
}

/// The parameter that a command sets.
fn param_of(command: u8, value: u8) -> Param
    ensures { result ≡ param_of command value }
{
    match command {
        1 => Param::TxDelay(value),
        2 => Param::Persist(value),
        3 => Param::SlotTime(value),
        4 => Param::TxTail(value),
        _ => Param::FullDuplex(value != 0),
    }
}
