//! What AGWPE messages ask of a station, kind by kind.
ghost use Rattle.std.specs.Prelude.{◌≡◌, OnOk, true, OnErr};
ghost use Rattle.station.specs.AgwRequests.{AreAnswered, IsAnswered, answering_else};
ghost use Rattle.station.specs.Held.{ClosesIds};
ghost use Rattle.station.specs.StandsFor.{Shows};
ghost use Rattle.station.specs.Turn.{Turn};

use crate::host_out::HostOut;
use crate::memory::Memory;
use crate::parts::Parts;
use agwpe_port::AgwMessage;
use tnc_base::OutOfMemory;

impl Parts {
    /// What the messages of a connection ask, one after another.
    pub(crate) fn answer_all(
        &mut self,
        memory: &mut Memory,
        out: &mut HostOut,
        id: u32,
        messages: &[AgwMessage],
    ) -> Result<(), OutOfMemory>
        ensures step { (turn : Turn) → Shows self.old out.old turn → OnOk result ((following : Turn)
            × AreAnswered id messages.now turn following × Shows self.new out.new following) }
        ensures ids { OnOk result (ClosesIds self.old out.old self.new out.new) }
        ensures wanted { OnErr result (memory.new.refused ≡ true) }
    {
        for message in messages {
            self.answer(memory, out, id, message)?;
        }
        Ok(())
    }

    /// What a message asks.
    fn answer(
        &mut self,
        memory: &mut Memory,
        out: &mut HostOut,
        id: u32,
        message: &AgwMessage,
    ) -> Result<(), OutOfMemory>
        ensures step { (turn : Turn) → Shows self.old out.old turn → OnOk result ((following : Turn)
            × IsAnswered id message.now turn following × Shows self.new out.new following) }
        ensures ids { OnOk result (ClosesIds self.old out.old self.new out.new) }
        ensures wanted { OnErr result (memory.new.refused ≡ true) }
    {
        match message.kind {
            b'C' | b'v' | b'c' => self.call(memory, out, id, message),
            _ => self.answer_else(memory, out, id, message),
        }
    }

    /// What a message asks that does not call.
    fn answer_else(
        &mut self,
        memory: &mut Memory,
        out: &mut HostOut,
        id: u32,
        message: &AgwMessage,
    ) -> Result<(), OutOfMemory>
        ensures shows { (turn : Turn) → Shows self.old out.old turn
            → OnOk result (Shows self.new out.new (answering_else id message.now turn)) }
        ensures ids { OnOk result (ClosesIds self.old out.old self.new out.new) }
        ensures wanted { OnErr result (memory.new.refused ≡ true) }
    {
        match message.kind {
            b'R' => self.reply_version(memory, out, id),
            b'G' => self.reply_ports(memory, out, id),
            b'g' => self.reply_capabilities(memory, out, id),
            b'X' => self.register(memory, out, id, message.from),
            b'x' => {
                self.unregister(id, message.from);
                Ok(())
            }
            b'k' => {
                self.toggle_raw(id);
                Ok(())
            }
            b'm' => {
                self.toggle_monitor(id);
                Ok(())
            }
            b'K' => self.send_raw(memory, out, id, message),
            b'M' => self.send_unproto(memory, out, id, message),
            b'V' => self.send_unproto_via(memory, out, id, message),
            b'D' => self.give(memory, out, id, message),
            b'd' => self.disconnect(memory, out, id, message),
            b'Y' => self.reply_pending(memory, out, id, message),
            b'y' => self.reply_waiting(memory, out, id),
            b'H' => self.reply_heard(memory, out, id),
            _ => Ok(()),
        }
    }
}
