//! What a run of the bench is made of: its words, and the random words that they stand for.
ghost use Rattle.std.specs.Prelude.{◌≡◌, IfOk};
ghost use Rattle.channel_bench.specs.Words.{text_of};
ghost use Rattle.channel_access.specs.Words.{generator_of};

use channel_access::CheckOctets;
use rand_core::utils::NextWord;
use rand_pcg::Lcg64Xsh32;
use std::alloc::Global;
use tnc_base::{Octets, OutOfMemory};

/// The words of the bench.
#[derive(Clone, Copy, Debug)]
pub struct BenchWords {
    /// The seed of all that is drawn. Station B has the next one.
    pub seed: u64,
    /// How many octets each host program gives in a set-up, at most 100,000.
    pub octets: u32,
    /// How many of 100 transmissions are lost, at most 90.
    pub loss: u8,
    /// The most noise of a sample, at most 2000.
    pub noise: u16,
    /// Both stations are in full duplex.
    pub full: bool,
    /// Both stations call modulo 128.
    pub wide: bool,
    /// So many check octets are sent around each frame that fits into a block of FX.25, and both stations read blocks; or
    /// all is sent and heard plainly.
    pub checks: Option<CheckOctets>,
}

/// The text of a host program: so many octets, each the low eight bits of a word.
pub(crate) fn text(alloc: Global, seed: u64, stream: u64, count: u32) -> Result<Octets, OutOfMemory>
    ensures { IfOk result (λ text. text ≡ text_of seed stream count) }
{
    let mut generator = Lcg64Xsh32::new(seed, stream);
    let mut octets = Vec::new(alloc);
    for _ in 0..count {
        octets.push((generator.next_word() % 256) as u8)?;
    }
    let text = Octets::from_slice(alloc, &octets)?;
    Ok(text)
}
