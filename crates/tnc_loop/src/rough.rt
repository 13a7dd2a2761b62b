//! Samples as a receiver may hear them: at any phase and level, after noise, and each with an error.
ghost use Rattle.std.specs.Prelude.{◌≡◌, ◌≤◌, ◌+◌, ◌%◌, length, map, unsigned_abs, All, IfOk, OnOk};
ghost use Rattle.afsk_modulator.specs.Modulation.{IsBitPhase, IsLevel};
ghost use Rattle.afsk_modulator.specs.Transmission.{transmission_at};
ghost use Rattle.tnc_loop.specs.Words.{following, word_at};
ghost use Rattle.channel_access.specs.Words.{words};
ghost use Rattle.tnc_loop.specs.Rough.{after_rough, error_of, level_drawn, most_error, noise_of, phase_drawn};
ghost use Rattle.tnc_loop.specs.Rough.{rough_samples, with_errors};
ghost use Rattle.tnc_loop.specs.Held.{drawn_as, IsGood};

use crate::drawing::{Drawn, below};
use afsk_modulator::{ModFault, transmission_at};
use rand_core::utils::NextWord;
use rand_pcg::Lcg64Xsh32;
use std::alloc::Global;
use std::slice;
use tnc_base::OutOfMemory;

/// The samples that are heard of a transmission: noise in place of silence, and then the transmission
/// from a phase and at a level that are drawn, with an error in each sample.
pub(crate) fn rough_samples(
    alloc: Global,
    drawn: &Drawn,
    generator: &mut Lcg64Xsh32,
) -> Result<Vec<i16>, OutOfMemory>
    requires { IsGood drawn.now }
    ensures samples { IfOk result (λ samples. samples.items ≡ rough_samples (drawn_as drawn.now) generator.old) }
    ensures following { OnOk result (generator.new ≡ after_rough (drawn_as drawn.now) generator.old) }
{
    let phase = draw_phase(generator);
    let level = draw_level(generator);
    let mut samples = draw_noise(alloc, generator, drawn.silence)?;
    let exact = exact_samples(alloc, phase, level, drawn)?;
    samples.extend_from_slice(&with_errors(alloc, generator, level, &exact)?)?;
    Ok(samples)
}

/// A phase at which a bit can begin.
fn draw_phase(generator: &mut Lcg64Xsh32) -> u8
    ensures value { result ≡ phase_drawn generator.old }
    ensures phase { IsBitPhase result }
    ensures following { generator.new ≡ following 1 generator.old }
{
    8 * below(generator, 6) as u8
}

/// A level from 10 to 29,009.
fn draw_level(generator: &mut Lcg64Xsh32) -> u16
    ensures value { result ≡ 10 + word_at 0 generator.old % 29000 }
    ensures bound { result ≤ 29009 }
    ensures level { IsLevel result }
    ensures following { generator.new ≡ following 1 generator.old }
{
    10 + below(generator, 29000)
}

/// So many samples of noise.
fn draw_noise(
    alloc: Global,
    generator: &mut Lcg64Xsh32,
    count: u16,
) -> Result<Vec<i16>, OutOfMemory>
    ensures samples { IfOk result (λ samples. samples.items ≡ map noise_of (words count generator.old)) }
    ensures following { OnOk result (generator.new ≡ following count generator.old) }
{
    let mut samples = Vec::new(alloc);
    for _ in 0..count {
        samples.push(draw_noise_sample(generator))?;
    }
    Ok(samples)
}

/// A sample of noise: the low sixteen bits of a word, with a sign.
fn draw_noise_sample(generator: &mut Lcg64Xsh32) -> i16
    ensures value { result ≡ noise_of (word_at 0 generator.old) }
    ensures following { generator.new ≡ following 1 generator.old }
{
    ((generator.next_word() % 65536) as u16).cast_signed()
}

/// The samples of a transmission without errors.
fn exact_samples(
    alloc: Global,
    phase: u8,
    level: u16,
    drawn: &Drawn,
) -> Result<Vec<i16>, OutOfMemory>
    requires good { IsGood drawn.now }
    requires phase { IsBitPhase phase }
    requires level { IsLevel level }
    ensures bound { IfOk result (λ samples. All (λ sample. unsigned_abs sample ≤ level) samples.items) }
    ensures samples { IfOk result (λ samples. samples.items
        ≡ transmission_at phase level (drawn_as drawn.now).frames drawn.now.opening drawn.now.closing) }
{
    let frames = slice::from_ref(&drawn.octets);
    match transmission_at(alloc, phase, level, frames, drawn.opening, drawn.closing) {
        Ok(samples) => Ok(samples),
        Err(ModFault::Memory) => Err(OutOfMemory),
        Err(ModFault::FewFlags) => unreachable!(),
        Err(ModFault::BadLength { .. }) => unreachable!(),
    }
}

/// The samples, each with an error that is drawn: of at most a tenth of the level, less one.
fn with_errors(
    alloc: Global,
    generator: &mut Lcg64Xsh32,
    level: u16,
    exact: &[i16],
) -> Result<Vec<i16>, OutOfMemory>
    requires level { IsLevel level }
    requires bound { level ≤ 29009 }
    requires samples { All (λ sample. unsigned_abs sample ≤ level) exact.now }
    ensures samples { IfOk result (λ samples. samples.items ≡ with_errors level exact.now generator.old) }
    ensures following { OnOk result (generator.new ≡ following (length exact.now) generator.old) }
{
    let mut samples = Vec::new(alloc);
    for sample in exact {
        samples.push(*sample + draw_error(generator, level))?;
    }
    Ok(samples)
}

/// The error of a sample.
fn draw_error(generator: &mut Lcg64Xsh32, level: u16) -> i16
    requires level { IsLevel level }
    requires bound { level ≤ 29009 }
    ensures value { result ≡ error_of level (word_at 0 generator.old) }
    ensures bound { unsigned_abs result ≤ most_error level }
    ensures following { generator.new ≡ following 1 generator.old }
{
    let most = level / 10 - 1;
    below(generator, 2 * most + 1) as i16 - most as i16
}
