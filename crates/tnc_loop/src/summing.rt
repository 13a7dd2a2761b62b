//! The summary of what was heard.
ghost use Rattle.std.specs.Prelude.{◌≡◌, IfOk, string_bytes};
ghost use Rattle.std.specs.List.{concat};
ghost use Rattle.frame_merge.specs.Merged.{candidate_frames};
ghost use Rattle.tnc_loop.specs.Summary.{summary};

use frame_merge::Candidate;
use std::alloc::Global;
use tnc_base::{OutOfMemory, fnv};

/// The four lines of the summary.
#[tactic(auto, unfolding(crate::specs::Summary::summary))]
pub(crate) fn summary(
    alloc: Global,
    made: u16,
    heard: &[Candidate],
    stray: usize,
) -> Result<String, OutOfMemory>
    ensures { IfOk result (λ text. string_bytes text ≡ summary made (candidate_frames heard.now) stray) }
{
    let hash = hex::encode(alloc, fnv(&octets_of(alloc, heard)?).to_be_bytes())?;
    let heard = heard.len();
    Ok(format!(in alloc; "frames {made}\nheard {heard}\nstray {stray}\nhash {hash}\n")?)
}

/// The octets of all that was heard.
fn octets_of(alloc: Global, heard: &[Candidate]) -> Result<Vec<u8>, OutOfMemory>
    ensures { IfOk result (λ octets. octets.items ≡ concat (candidate_frames heard.now)) }
{
    let mut octets = Vec::new(alloc);
    for item in heard {
        octets.extend_from_slice(item.octets.as_slice())?;
    }
    Ok(octets)
}
