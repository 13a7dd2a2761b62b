//! Frames that are heard and sent, as hosts that monitor the channel are shown them.
ghost use Rattle.std.specs.Prelude.{◌≡◌, ◌≤◌, true, false, length, Option, Some, None, IfOk, OnOk, OnErr};
ghost use Rattle.agwpe_port.specs.Messages.{spelling};
ghost use Rattle.ax25_frames.specs.declared.frame.Frame.{Frame};
ghost use Rattle.station.specs.Heard.{IsPathOf, IsReadAs};
ghost use Rattle.station.specs.Monitored.{heard_modulus};
ghost use Rattle.station.specs.Monitoring.{monitoring, monitor_message};
ghost use Rattle.station.specs.StandsFor.{Shows};
ghost use Rattle.station.specs.Ticks.{IsSentFrame};
ghost use Rattle.station.specs.Turn.{Turn};

use crate::frame_hearing::frame_in;
use crate::host_out::HostOut;
use crate::memory::Memory;
use crate::messages::message;
use crate::parts::Parts;
use agwpe_port::call_text;
use ax25_address::{Path, read_path};
use ax25_frames::{Frame, Modulus};
use channel_access::Sent;
use frame_monitor::{monitor_letter, monitor_text};
use tnc_base::{Octets, OutOfMemory};

impl Parts {
    /// Shows a frame that was heard on this path.
    pub(crate) fn monitor_heard(
        &self,
        memory: &mut Memory,
        out: &mut HostOut,
        path: &Path,
        octets: &[u8],
    ) -> Result<(), OutOfMemory>
        ensures shows { (turn : Turn) → Shows self.now out.old turn → OnOk result ((frame : Option Frame)
            × IsReadAs (heard_modulus (Some path.now) turn.now.links) octets.now frame
            × Shows self.now out.new (monitoring false turn.now.ticks frame turn)) }
        ensures wanted { OnErr result (memory.new.refused ≡ true) }
    {
        let modulus = self.links.modulus_between(&path.dest, &path.source);
        self.monitor(memory, out, false, octets, modulus)
    }

    /// Shows a frame whose sending has ended.
    pub(crate) fn monitor_sent(
        &self,
        memory: &mut Memory,
        out: &mut HostOut,
        sent: &Option<Sent>,
    ) -> Result<(), OutOfMemory>
        ensures shows { (turn : Turn) → Shows self.now out.old turn → OnOk result ((frame : Option Frame)
            × IsSentFrame sent.now turn.now.links frame
            × Shows self.now out.new (monitoring true turn.now.ticks frame turn)) }
        ensures wanted { OnErr result (memory.new.refused ≡ true) }
    {
        let Some(sent) = sent else {
            return Ok(());
        };
        let octets = sent.octets.as_slice();
        let Ok((path, _)) = read_path(octets) else {
            return Ok(());
        };
        let modulus = self.links.modulus_between(&path.source, &path.dest);
        self.monitor(memory, out, true, octets, modulus)
    }

    /// Shows the frame that octets are read as in a modulus.
    fn monitor(
        &self,
        memory: &mut Memory,
        out: &mut HostOut,
        sent: bool,
        octets: &[u8],
        modulus: Modulus,
    ) -> Result<(), OutOfMemory>
        ensures shows { (turn : Turn) → Shows self.now out.old turn → OnOk result ((frame : Option Frame)
            × IsReadAs modulus octets.now frame
            × Shows self.now out.new (monitoring sent turn.now.ticks frame turn)) }
        ensures wanted { OnErr result (memory.new.refused ≡ true) }
    {
        match frame_in(memory, octets, modulus)? {
            Some(frame) => self.show_frame(memory, out, sent, &frame),
            None => Ok(()),
        }
    }

    /// Shows a frame, heard or sent, to each connection that monitors.
    fn show_frame(
        &self,
        memory: &mut Memory,
        out: &mut HostOut,
        sent: bool,
        frame: &Frame,
    ) -> Result<(), OutOfMemory>
        ensures shows { (turn : Turn) → Shows self.now out.old turn
            → OnOk result (Shows self.now out.new (monitoring sent turn.now.ticks (Some frame.now) turn)) }
        ensures wanted { OnErr result (memory.new.refused ≡ true) }
    {
        for connection in &self.connections {
            if connection.monitors {
                let shown = frame_shown(memory, sent, self.ticks, frame)?;
                out.send(memory, connection.id, shown)?;
            }
        }
        Ok(())
    }
}

/// A frame that was heard or sent after so many ticks, as an AGWPE message.
fn frame_shown(
    memory: &mut Memory,
    sent: bool,
    ticks: u64,
    frame: &Frame,
) -> Result<Octets, OutOfMemory>
    ensures spelled { IfOk result (λ shown. shown ≡ spelling (monitor_message sent ticks frame.now)) }
    ensures wanted { OnErr result (memory.new.refused ≡ true) }
{
    let text = monitor_text(memory.alloc(), frame, ticks);
    let text = memory.took(text)?;
    let kind = monitor_letter(&frame.kind, sent);
    let from = call_text(&frame.path.source);
    let to = call_text(&frame.path.dest);
    message(memory, kind, 0, from, to, &text)
}
