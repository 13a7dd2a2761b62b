//! The bits of a transmission.
ghost use Rattle.std.specs.Prelude.{◌≡◌, IfOk};
ghost use Rattle.hdlc_framer.specs.Body.{flags};
ghost use Rattle.fx25_sender.specs.Transmission.{fx25_body};
ghost use Rattle.fx25_sender.specs.Units.{unit};

use fx25_blocks::write_unit;
use hdlc_framer::stuff;
use std::alloc::Global;
use tnc_base::{Octets, OutOfMemory};

/// The bits of opening flags, of the units of frames with so many check octets, and of closing flags.
pub(crate) fn fx25_body(
    alloc: Global,
    checks: usize,
    frames: &[Octets],
    opening: u16,
    closing: u16,
) -> Result<Vec<bool>, OutOfMemory>
    ensures { IfOk result (λ bits. bits.items ≡ fx25_body checks frames.now opening closing) }
{
    let mut bits = flags(alloc, opening)?;
    for frame in frames {
        let unit = unit(alloc, checks, frame)?;
        bits.extend_from_slice(&unit)?;
    }
    let last = flags(alloc, closing)?;
    bits.extend_from_slice(&last)?;
    Ok(bits)
}

/// So many flags.
fn flags(alloc: Global, count: u16) -> Result<Vec<bool>, OutOfMemory>
    ensures { IfOk result (λ bits. bits.items ≡ flags count) }
{
    let bits = stuff(alloc, &[], count, 0)?;
    Ok(bits)
}

/// The unit of a frame.
fn unit(alloc: Global, checks: usize, frame: &Octets) -> Result<Vec<bool>, OutOfMemory>
    ensures { IfOk result (λ bits. bits.items ≡ unit checks frame.now) }
{
    let bits = write_unit(alloc, checks, frame)?;
    Ok(bits)
}
