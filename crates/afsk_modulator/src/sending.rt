//! Frames as the samples of one transmission.
ghost use Rattle.std.specs.Prelude.{◌≡◌, ℕ, ◌↔◌, All, IfOk, OnOk, IsErrOf, IfSome, IsNone};
ghost use Rattle.nrzi_bits.specs.Line.{line};
ghost use Rattle.afsk_modulator.specs.Modulation.{wave_of, IsBitPhase, IsLevel};
ghost use Rattle.afsk_modulator.specs.Transmission.{transmission, transmission_at, AreFewFlags, IsFirstBadLength};
ghost use Rattle.hdlc_framer.specs.FrameLength.{IsBadLength};

use crate::fault::ModFault;
use crate::modulator::{FULL_LEVEL, Modulator};
use hdlc_framer::{has_frame_length, stuff};
use nrzi_bits::NrziOut;
use std::alloc::Global;
use tnc_base::{Octets, OutOfMemory};

/// The fewest flags that open a transmission.
const LEAST_OPENING: u16 = 2;

/// The fewest flags that close one.
const LEAST_CLOSING: u16 = 1;

/// The samples of one transmission: `opening` flags, the frames with one flag between neighbours, and
/// `closing` flags, on a line that stands at mark, from phase 0 on. A frame is its octets without the
/// check sequence, which is added (AX.25 2.2 sections 3.1, 3.6 and 3.7). The first rule that is broken
/// is told: the flags come before the frames, and want of memory comes last.
pub fn transmission(
    alloc: Global,
    frames: &[Octets],
    opening: u16,
    closing: u16,
) -> Result<Vec<i16>, ModFault>
    ensures sent { IfOk result (λ samples. samples.items ≡ transmission frames.now opening closing) }
    ensures lengths { OnOk result (All (λ octets. ¬ IsBadLength octets) frames.now) }
    ensures few_flags { IsErrOf result ModFault.FewFlags ↔ AreFewFlags opening closing }
    ensures bad_length { (index : ℕ) → IsErrOf result (ModFault.BadLength index)
        ↔ ((¬ AreFewFlags opening closing) × IsFirstBadLength frames.now index) }
{
    transmission_at(alloc, 0, FULL_LEVEL, frames, opening, closing)
}

/// The same from any phase at which a bit can begin, with the amplitude `level`. The full one is 10000.
pub fn transmission_at(
    alloc: Global,
    phase: u8,
    level: u16,
    frames: &[Octets],
    opening: u16,
    closing: u16,
) -> Result<Vec<i16>, ModFault>
    requires phase { IsBitPhase phase }
    requires level { IsLevel level }
    ensures sent { IfOk result (λ samples. samples.items ≡ transmission_at phase level frames.now opening closing) }
    ensures lengths { OnOk result (All (λ octets. ¬ IsBadLength octets) frames.now) }
    ensures few_flags { IsErrOf result ModFault.FewFlags ↔ AreFewFlags opening closing }
    ensures bad_length { (index : ℕ) → IsErrOf result (ModFault.BadLength index)
        ↔ ((¬ AreFewFlags opening closing) × IsFirstBadLength frames.now index) }
{
    if opening < LEAST_OPENING || closing < LEAST_CLOSING {
        return Err(ModFault::FewFlags);
    }
    if let Some(index) = first_bad_length(frames) {
        return Err(ModFault::BadLength { index });
    }
    let bits = stuff(alloc, frames, opening, closing)?;
    Ok(modulated(alloc, Modulator::start(phase, level), &bits)?)
}

/// The place of the first frame that is too short or too long, without its check sequence.
pub fn first_bad_length(frames: &[Octets]) -> Option<usize>
    ensures found { IfSome result (IsFirstBadLength frames.now) }
    ensures none { IsNone result → All (λ octets. ¬ IsBadLength octets) frames.now }
{
    for (index, frame) in frames.iter().enumerate() {
        if !has_frame_length(frame.as_slice()) {
            return Some(index);
        }
    }
    None
}

/// The samples of bits on a line that stands at mark, by inverted NRZ, from where a modulator stands: eight a bit.
pub fn modulated(
    alloc: Global,
    mut modulator: Modulator,
    bits: &[bool],
) -> Result<Vec<i16>, OutOfMemory>
    ensures { IfOk result (λ samples. samples.items ≡ wave_of modulator (line bits.now)) }
{
    let mut line = NrziOut::new();
    let mut samples = Vec::new(alloc);
    for bit in bits {
        samples.extend_from_slice(modulator.next(line.step(*bit)).as_slice())?;
    }
    Ok(samples)
}
