//! Frames as the samples of one transmission.
ghost use Rattle.std.specs.Prelude.{◌≡◌, ℕ, ◌↔◌, All, IfOk, OnOk, IsErrOf};
ghost use Rattle.nrzi_bits.specs.Line.{line};
ghost use Rattle.afsk_modulator.specs.Level.{at_level};
ghost use Rattle.afsk_modulator.specs.Modulation.{IsLevel};
ghost use Rattle.afsk_modulator.specs.Transmission.{AreFewFlags, IsFirstBadLength};
ghost use Rattle.hdlc_framer.specs.FrameLength.{IsBadLength};
ghost use Rattle.hf_sender.specs.Wave.{wave};
ghost use Rattle.hf_sender.specs.Transmission.{hf_transmission};

use crate::modulator::HfModulator;
use afsk_modulator::{ModFault, first_bad_length};
use hdlc_framer::stuff;
use nrzi_bits::NrziOut;
use std::alloc::Global;
use tnc_base::{Octets, OutOfMemory};

/// The fewest flags that open a transmission.
const LEAST_OPENING: u16 = 2;

/// The fewest flags that close one.
const LEAST_CLOSING: u16 = 1;

/// The samples of one transmission on short wave: `opening` flags, the frames with one flag between neighbours, and
/// `closing` flags, on a line that stands at mark, from phase 0 on, with the amplitude `level`. A frame is its octets
/// without the check sequence, which is added (AX.25 2.2 sections 3.1, 3.6 and 3.7). The first rule that is broken is
/// told: the flags come before the frames, and want of memory comes last.
pub fn hf_transmission(
    alloc: Global,
    level: u16,
    frames: &[Octets],
    opening: u16,
    closing: u16,
) -> Result<Vec<i16>, ModFault>
    requires level { IsLevel level }
    ensures sent { IfOk result (λ samples. samples.items ≡ hf_transmission level frames.now opening closing) }
    ensures lengths { OnOk result (All (λ octets. ¬ IsBadLength octets) frames.now) }
    ensures few_flags { IsErrOf result ModFault.FewFlags ↔ AreFewFlags opening closing }
    ensures bad_length { (index : ℕ) → IsErrOf result (ModFault.BadLength index)
        ↔ ((¬ AreFewFlags opening closing) × IsFirstBadLength frames.now index) }
{
    if opening < LEAST_OPENING || closing < LEAST_CLOSING {
        return Err(ModFault::FewFlags);
    }
    if let Some(index) = first_bad_length(frames) {
        return Err(ModFault::BadLength { index });
    }
    let bits = stuff(alloc, frames, opening, closing)?;
    Ok(modulated(alloc, level, &bits)?)
}

/// The wave of bits, from phase 0 on, on a line that stands at mark.
fn modulated(alloc: Global, level: u16, bits: &[bool]) -> Result<Vec<i16>, OutOfMemory>
    requires { IsLevel level }
    ensures { IfOk result (λ samples. samples.items ≡ at_level level (wave (line bits.now))) }
{
    let mut line = NrziOut::new();
    let mut modulator = HfModulator::new(level);
    let mut samples = Vec::new(alloc);
    for bit in bits {
        let tone = line.step(*bit);
        samples.extend_from_slice(modulator.next(tone).as_slice())?;
    }
    Ok(samples)
}
