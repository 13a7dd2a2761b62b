//! The samples that reach a station: what the other one sends, unless it is lost or drowned, and noise.
ghost use Rattle.std.specs.Prelude.{◌≡◌, ◌≤◌, ◌*◌, ◌%◌, ◌+◌, length, replicate, pos, unsigned_abs, All, IfOk, OnOk};
ghost use Rattle.std.specs.List.{list_any};
ghost use Rattle.channel_bench.specs.Sounding.{is_sound, noise_of, with_words, after_words, with_noise, after_noise};
ghost use Rattle.channel_access.specs.Words.{after_word, next_word};

use rand_core::utils::NextWord;
use rand_pcg::Lcg64Xsh32;
use std::alloc::Global;
use tnc_base::OutOfMemory;

/// The samples of a tick.
pub(crate) const SAMPLES: usize = 96;

/// Some sample is not silent.
pub(crate) fn sends(samples: &[i16]) -> bool
    ensures { result ≡ list_any is_sound samples.now }
{
    samples.iter().any(|sample| is_sound(*sample))
}

fn is_sound(sample: i16) -> bool
    ensures { result ≡ is_sound sample }
{
    sample != 0
}

/// Samples with noise.
pub(crate) fn with_noise(
    alloc: Global,
    draws: &mut Lcg64Xsh32,
    noise: u16,
    samples: &[i16],
) -> Result<Vec<i16>, OutOfMemory>
    requires noise { noise ≤ 2000 }
    requires loud { All (λ sample. unsigned_abs sample ≤ 10000) samples.now }
    ensures samples { IfOk result (λ heard. heard.items ≡ with_noise noise samples.now draws.old) }
    ensures length { IfOk result (λ heard. length heard.items ≡ length samples.now) }
    ensures draws { OnOk result (draws.new ≡ after_noise noise samples.now draws.old) }
{
    if noise == 0 {
        return Ok(samples.to_vec(alloc)?);
    }
    with_words(alloc, draws, noise, samples)
}

/// Samples, each with the noise of a word.
fn with_words(
    alloc: Global,
    draws: &mut Lcg64Xsh32,
    noise: u16,
    samples: &[i16],
) -> Result<Vec<i16>, OutOfMemory>
    requires noise { noise ≤ 2000 }
    requires loud { All (λ sample. unsigned_abs sample ≤ 10000) samples.now }
    ensures samples { IfOk result (λ heard. heard.items ≡ with_words noise samples.now draws.old) }
    ensures length { IfOk result (λ heard. length heard.items ≡ length samples.now) }
    ensures draws { OnOk result (draws.new ≡ after_words samples.now draws.old) }
{
    let mut heard = Vec::new(alloc);
    for sample in samples {
        heard.push(*sample + draw_noise(draws, noise))?;
    }
    Ok(heard)
}

/// The noise of the next word.
fn draw_noise(draws: &mut Lcg64Xsh32, noise: u16) -> i16
    requires { noise ≤ 2000 }
    ensures value { result ≡ noise_of noise (next_word draws.old) }
    ensures bound { unsigned_abs result ≤ noise }
    ensures draws { draws.new ≡ after_word draws.old }
{
    let word = draws.next_word() % (2 * u32::from(noise) + 1);
    word as i16 - noise as i16
}
