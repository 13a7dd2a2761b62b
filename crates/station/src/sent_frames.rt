//! Frames that have been sent, as the hosts are told that asked for it.
ghost use Rattle.std.specs.Prelude.{◌≡◌, ◌++◌, OnOk, drop, true, OnErr};
ghost use Rattle.station.specs.Askers.{pieces_for, speaks_kiss};
ghost use Rattle.station.specs.Held.{ids_in};
ghost use Rattle.station.specs.State.{StationState};
ghost use Rattle.station.specs.StandsFor.{AreParts, Shows};
ghost use Rattle.station.specs.Ticks.{telling_sent};
ghost use Rattle.station.specs.Turn.{Turn};

use crate::asker::Asker;
use crate::connection::Reader;
use crate::host_out::HostOut;
use crate::memory::Memory;
use crate::parts::Parts;
use channel_access::Sent;
use kiss_port::write_kiss;
use tnc_base::OutOfMemory;

/// The command that tells of a frame.
const ACK_COMMAND: u8 = 12;

impl Parts {
    /// Tells the host of the front frame, if a frame has been sent and a host asked.
    pub(crate) fn tell_sent(
        &mut self,
        memory: &mut Memory,
        out: &mut HostOut,
        sent: &Option<Sent>,
    ) -> Result<(), OutOfMemory>
        ensures shows { (turn : Turn) → Shows self.old out.old turn
            → OnOk result (Shows self.new out.new (telling_sent sent.now turn)) }
        ensures ids { OnOk result (ids_in self.new ≡ ids_in self.old) }
        ensures wanted { OnErr result (memory.new.refused ≡ true) }
    {
        let Some(_) = sent else {
            return Ok(());
        };
        drop_front(&mut self.owners);
        if self.askers.is_empty() {
            return Ok(());
        }
        let asker = self.askers.remove(0);
        self.tell_asker(memory, out, asker)
    }

    /// Tells a host that its frame has been sent.
    fn tell_asker(
        &self,
        memory: &mut Memory,
        out: &mut HostOut,
        asker: Option<Asker>,
    ) -> Result<(), OutOfMemory>
        ensures told { (s : StationState) → AreParts self.now s → OnOk result (out.new
            ≡ record out.old { pieces = out.old.pieces ++ pieces_for asker s.connections }) }
        ensures wanted { OnErr result (memory.new.refused ≡ true) }
    {
        let Some(asker) = asker else {
            return Ok(());
        };
        if !self.speaks_kiss(asker.id) {
            return Ok(());
        }
        let told = write_kiss(memory.alloc(), 0, ACK_COMMAND, &asker.mark);
        let told = memory.took(told)?;
        out.send(memory, asker.id, told)
    }

    /// Whether a connection is there and speaks KISS.
    fn speaks_kiss(&self, id: u32) -> bool
        ensures { (s : StationState) → AreParts self.now s → result ≡ speaks_kiss id s.connections }
    {
        match self.place_of(id) {
            Some(place) => matches!(self.connections[place].reader, Reader::KissReader(_)),
            None => false,
        }
    }
}

/// The front frame is of nobody any more.
fn drop_front(owners: &mut Vec<Option<u32>>)
    ensures { owners.new.items ≡ drop 1 owners.old.items }
{
    if !owners.is_empty() {
        owners.remove(0);
    }
}
