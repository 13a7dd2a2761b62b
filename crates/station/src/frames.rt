//! Frames as they are queued.
ghost use Rattle.std.specs.Prelude.{◌≡◌, true, IfOk, OnErr};
ghost use Rattle.hdlc_framer.specs.FrameLength.{HasFrameLength};
ghost use Rattle.ax25_frames.specs.FrameOctets.{CanWrite};
ghost use Rattle.station.specs.FrameSpelling.{frame_octets};

use crate::memory::Memory;
use ax25_frames::{Frame, Modulus, write_frame};
use tnc_base::{Octets, OutOfMemory};

/// The octets of a frame that can be written in a modulus.
pub(crate) fn written(
    memory: &mut Memory,
    frame: &Frame,
    modulus: Modulus,
) -> Result<Octets, OutOfMemory>
    requires { CanWrite modulus frame.now }
    ensures octets { IfOk result (λ octets. octets ≡ frame_octets modulus frame.now) }
    ensures length { IfOk result HasFrameLength }
    ensures wanted { OnErr result (memory.new.refused ≡ true) }
{
    let octets = write_frame(memory.alloc(), frame, modulus);
    memory.took(octets)
}
