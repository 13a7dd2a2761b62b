//! A frame as a line of the report shows it.
ghost use Rattle.std.specs.Prelude.{◌≡◌, IfOk, string_bytes};
ghost use Rattle.tnc_ports.specs.SampledFrames.{IsFrameText};

use ax25_frames::{FrameFault, Modulus, read_frame, text_of, text_of_fault};
use std::alloc::Global;
use tnc_base::{Octets, OutOfMemory};

/// The text of the frame that the octets are, or of what is wrong with them if they are none.
pub(crate) fn frame_text(
    alloc: Global,
    octets: &[u8],
    modulus: Modulus,
) -> Result<Octets, OutOfMemory>
    ensures { IfOk result (λ text. IsFrameText modulus octets.now text) }
{
    let text = frame_line(alloc, octets, modulus)?;
    Octets::from_slice(alloc, text.as_bytes())
}

fn frame_line(alloc: Global, octets: &[u8], modulus: Modulus) -> Result<String, OutOfMemory>
    ensures { IfOk result (λ text. IsFrameText modulus octets.now (string_bytes text)) }
{
    match read_frame(alloc, octets, modulus) {
        Ok(frame) => text_of(alloc, &frame),
        Err(FrameFault::Memory) => Err(OutOfMemory),
        Err(fault) => text_of_fault(alloc, fault),
    }
}
