//! Raw PCM: signed 16-bit samples, low octet first, one channel.
ghost use Rattle.std.specs.Prelude.{◌≡◌, IfOk};
ghost use Rattle.tnc_forms.specs.Pcm.{pcm};

use byteorder::{ByteOrder, LittleEndian};
use std::alloc::Global;
use tnc_base::OutOfMemory;

/// Samples as raw PCM.
#[tactic(auto, unfolding(crate::specs::Pcm::pcm))]
pub fn write_pcm(alloc: Global, samples: &[i16]) -> Result<Vec<u8>, OutOfMemory>
    ensures { IfOk result (λ octets. octets.items ≡ pcm samples.now) }
{
    let mut octets = vec![in alloc; 0; 2 * samples.len()]?;
    LittleEndian::write_i16_into(samples, &mut octets);
    Ok(octets)
}
