//! Frames that are heard, as hosts are shown them.
ghost use Rattle.std.specs.Prelude.{◌≡◌, ◌∷◌, ◌++◌, length, IfOk, OnOk, true, OnErr};
ghost use Rattle.agwpe_port.specs.Messages.{spelling};
ghost use Rattle.hdlc_framer.specs.FrameLength.{HasFrameLength};
ghost use Rattle.station.specs.Heard.{showing, with_shown, kiss_data};
ghost use Rattle.station.specs.HeldConnections.{kind_of};
ghost use Rattle.station.specs.HostMessages.{raw_message};
ghost use Rattle.station.specs.StandsFor.{Shows};
ghost use Rattle.station.specs.Turn.{Turn};

use crate::connection::{Connection, Reader};
use crate::host_out::HostOut;
use crate::memory::Memory;
use crate::messages::message;
use crate::parts::Parts;
use kiss_port::write_kiss;
use tnc_base::{Octets, OutOfMemory};

impl Parts {
    /// Shows a frame between the calls of these fields to every KISS connection, and to every AGWPE connection that
    /// asked for raw frames.
    pub(crate) fn show(
        &self,
        memory: &mut Memory,
        out: &mut HostOut,
        from: [u8; 10],
        to: [u8; 10],
        octets: &[u8],
    ) -> Result<(), OutOfMemory>
        requires { HasFrameLength octets.now }
        ensures shows { (turn : Turn) → Shows self.now out.old turn
            → OnOk result (Shows self.now out.new (showing from to octets.now turn)) }
        ensures wanted { OnErr result (memory.new.refused ≡ true) }
    {
        for connection in &self.connections {
            show_to(memory, out, connection, from, to, octets)?;
        }
        Ok(())
    }
}

/// Shows a frame to a connection.
fn show_to(
    memory: &mut Memory,
    out: &mut HostOut,
    connection: &Connection,
    from: [u8; 10],
    to: [u8; 10],
    octets: &[u8],
) -> Result<(), OutOfMemory>
    requires { HasFrameLength octets.now }
    ensures shown { OnOk result (out.new
        ≡ with_shown (kind_of connection.now.reader) connection.now.id connection.now.raw from to octets.now out.old) }
    ensures wanted { OnErr result (memory.new.refused ≡ true) }
{
    match &connection.reader {
        Reader::KissReader(_) => {
            let shown = write_kiss(memory.alloc(), 0, 0, octets);
            let shown = memory.took(shown)?;
            out.send(memory, connection.id, shown)
        }
        Reader::AgwReader(_) => {
            if !connection.raw {
                return Ok(());
            }
            let shown = raw_frame(memory, from, to, octets)?;
            out.send(memory, connection.id, shown)
        }
    }
}

/// A frame as an AGWPE message.
fn raw_frame(
    memory: &mut Memory,
    from: [u8; 10],
    to: [u8; 10],
    octets: &[u8],
) -> Result<Octets, OutOfMemory>
    requires { HasFrameLength octets.now }
    ensures spelled { IfOk result (λ written. written ≡ spelling (raw_message from to octets.now)) }
    ensures wanted { OnErr result (memory.new.refused ≡ true) }
{
    let mut body = Vec::new(memory.alloc());
    memory.push(&mut body, 0)?;
    memory.took(body.extend_from_slice(octets))?;
    message(memory, b'K', 0, from, to, &body)
}
