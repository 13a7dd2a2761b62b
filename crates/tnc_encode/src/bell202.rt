//! A transmission of Bell 202: the samples of the modulator, by windows that are made once.
ghost use Rattle.std.specs.Prelude.{◌≡◌, ◌+◌, ℕ, IfOk, length};
ghost use Rattle.nrzi_bits.specs.Line.{line};
ghost use Rattle.afsk_modulator.specs.Modulation.{IsLevel, wave_of};
ghost use Rattle.afsk_modulator.specs.Transmission.{transmission_at};

use crate::windows::Windows;
use hdlc_framer::stuff;
use nrzi_bits::NrziOut;
use std::alloc::Global;
use tnc_base::{Octets, OutOfMemory};
use tone_table::advance;

/// The samples of one transmission, from phase 0 on.
#[tactic(auto, unfolding(afsk_modulator::specs::Transmission::transmission_at))]
pub(crate) fn bell202_transmission(
    alloc: Global,
    level: u16,
    frames: &[Octets],
    opening: u16,
    closing: u16,
) -> Result<Vec<i16>, OutOfMemory>
    requires { IsLevel level }
    ensures { IfOk result (λ samples. samples.items ≡ transmission_at 0 level frames.now opening closing) }
{
    let bits = stuff(alloc, frames, opening, closing)?;
    let samples = modulated(alloc, level, &bits)?;
    Ok(samples)
}

/// The wave of bits from phase 0 on, on a line that stands at mark.
fn modulated(alloc: Global, level: u16, bits: &[bool]) -> Result<Vec<i16>, OutOfMemory>
    requires { IsLevel level }
    ensures { IfOk result (λ samples. samples.items ≡ wave_of (record { phase = 0; level = level }) (line bits.now)) }
{
    let windows = Windows::at_level(level);
    let mut line = NrziOut::new();
    let mut phase = 0;
    let mut samples = Vec::new(alloc);
    for bit in bits {
        let tone = line.step(*bit);
        samples.extend_from_slice(windows.of(phase, tone).as_slice())?;
        phase = advance(phase, tone);
    }
    Ok(samples)
}

/// How many samples one transmission has after so many silent ones: eight a bit. Refuses more than fit into memory.
pub(crate) fn bell202_count(
    alloc: Global,
    silence: u32,
    frames: &[Octets],
    opening: u16,
    closing: u16,
) -> Result<usize, OutOfMemory>
    ensures { (level : ℕ) → IfOk result (λ count. count
        ≡ silence + length (transmission_at 0 level frames.now opening closing)) }
{
    let bits = stuff(alloc, frames, opening, closing)?;
    let Some(samples) = bits.len().checked_mul(8) else {
        return Err(OutOfMemory);
    };
    let Some(count) = samples.checked_add(silence as usize) else {
        return Err(OutOfMemory);
    };
    Ok(count)
}
