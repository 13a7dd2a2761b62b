//! Frames as the samples of one transmission.
ghost use Rattle.std.specs.Prelude.{◌≡◌, ℕ, ◌↔◌, All, IfOk, OnOk, IsErrOf};
ghost use Rattle.afsk_modulator.specs.Modulation.{IsLevel};
ghost use Rattle.afsk_modulator.specs.Transmission.{AreFewFlags, IsFirstBadLength};
ghost use Rattle.hdlc_framer.specs.FrameLength.{IsBadLength};
ghost use Rattle.fx25_sender.specs.Transmission.{fx25_transmission};

use crate::body::fx25_body;
use afsk_modulator::{ModFault, Modulator, first_bad_length, modulated};
use std::alloc::Global;
use tnc_base::Octets;

/// The fewest flags that open a transmission.
const LEAST_OPENING: u16 = 2;

/// The fewest flags that close one.
const LEAST_CLOSING: u16 = 1;

/// The samples of one transmission: `opening` flags, the unit of each frame with `checks` check octets, and `closing`
/// flags, on a line that stands at mark, from phase 0 on, with the amplitude `level`. A unit is a tag and a block
/// (FX.25), or a flag, the frame and a flag if the frame fits into no block with as many check octets, as none does
/// unless `checks` is 16, 32 or 64. A frame is its octets without the check sequence, which is added (AX.25 2.2
/// sections 3.1, 3.6 and 3.7). The first rule that is broken is told: the flags come before the frames, and want of
/// memory comes last.
pub fn fx25_transmission(
    alloc: Global,
    checks: usize,
    level: u16,
    frames: &[Octets],
    opening: u16,
    closing: u16,
) -> Result<Vec<i16>, ModFault>
    requires level { IsLevel level }
    ensures sent { IfOk result (λ samples. samples.items ≡ fx25_transmission checks level frames.now opening closing) }
    ensures lengths { OnOk result (All (λ octets. ¬ IsBadLength octets) frames.now) }
    ensures few_flags { IsErrOf result ModFault.FewFlags ↔ AreFewFlags opening closing }
    ensures bad_length { (index : ℕ) → IsErrOf result (ModFault.BadLength index)
        ↔ ((¬ AreFewFlags opening closing) × IsFirstBadLength frames.now index) }
{
    if opening < LEAST_OPENING || closing < LEAST_CLOSING {
        return Err(ModFault::FewFlags);
    }
    if let Some(index) = first_bad_length(frames) {
        return Err(ModFault::BadLength { index });
    }
    let bits = fx25_body(alloc, checks, frames, opening, closing)?;
    Ok(modulated(alloc, Modulator::start(0, level), &bits)?)
}
