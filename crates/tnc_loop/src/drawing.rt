//! Transmissions drawn from random words.
ghost use Rattle.std.specs.Prelude.{◌≡◌, ◌<◌, ◌≤◌, ◌%◌, length, map, IfOk, OnOk};
ghost use Rattle.tnc_loop.specs.Words.{loop_generator, following, word_at};
ghost use Rattle.channel_access.specs.Words.{words};
ghost use Rattle.tnc_loop.specs.Drawn.{transmission_drawn, after_transmission};
ghost use Rattle.tnc_loop.specs.Held.{drawn_as, IsGood};

use rand_core::utils::NextWord;
use rand_pcg::Lcg64Xsh32;
use std::alloc::Global;
use tnc_base::{Octets, OutOfMemory};

/// The stream of the generator that all seeds share.
const STREAM: u64 = 1;

/// A transmission of one frame.
#[derive(Drop)]
pub(crate) struct Drawn {
    /// The silent samples before it.
    pub silence: u16,
    /// The flags that open it.
    pub opening: u16,
    /// The flags that close it.
    pub closing: u16,
    /// The octets of the frame, without its check sequence.
    pub octets: Octets,
}

/// The generator of a seed.
pub(crate) fn generator(seed: u64) -> Lcg64Xsh32
    ensures { result ≡ loop_generator seed }
{
    Lcg64Xsh32::new(seed, STREAM)
}

/// Draws the next transmission.
pub(crate) fn draw(alloc: Global, generator: &mut Lcg64Xsh32) -> Result<Drawn, OutOfMemory>
    ensures drawn { IfOk result (λ drawn. drawn_as drawn ≡ transmission_drawn generator.old) }
    ensures good { IfOk result IsGood }
    ensures following { OnOk result (generator.new ≡ after_transmission generator.old) }
{
    let silence = below(generator, 64);
    let opening = 2 + below(generator, 4);
    let closing = 1 + below(generator, 3);
    let length = 15 + below(generator, 986);
    Ok(Drawn {
        silence,
        opening,
        closing,
        octets: draw_octets(alloc, generator, length)?,
    })
}

/// A number below `bound`, from one word.
pub(crate) fn below(generator: &mut Lcg64Xsh32, bound: u16) -> u16
    requires { 0 < bound }
    ensures value { result ≡ word_at 0 generator.old % bound }
    ensures bound { result < bound }
    ensures following { generator.new ≡ following 1 generator.old }
{
    (generator.next_word() % u32::from(bound)) as u16
}

/// So many octets, each from a word.
fn draw_octets(alloc: Global, generator: &mut Lcg64Xsh32, count: u16) -> Result<Octets, OutOfMemory>
    ensures octets { IfOk result (λ octets. octets ≡ map (λ word. word % 256) (words count generator.old)) }
    ensures count { IfOk result (λ octets. length octets ≡ count) }
    ensures following { OnOk result (generator.new ≡ following count generator.old) }
{
    let mut octets = Vec::new(alloc);
    for _ in 0..count {
        octets.push((generator.next_word() % 256) as u8)?;
    }
    Ok(Octets::from_slice(alloc, &octets)?)
}
