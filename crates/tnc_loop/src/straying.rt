//! Stray candidates.
ghost use Rattle.std.specs.Prelude.{◌≡◌, length, IfOk};
ghost use Rattle.tnc_loop.specs.Strays.{is_stray, strays, first_stray};

use clean_signal::{TrueEnd, is_sent};
use frame_merge::Candidate;
use std::alloc::Global;
use tnc_base::{Octets, OutOfMemory};

/// How many of the candidates are no frame that was sent.
pub(crate) fn count_strays(ends: &[TrueEnd], items: &[Candidate]) -> usize
    ensures { result ≡ length (strays ends.now items.now) }
{
    items.iter().filter(|item| is_stray(ends, item)).count()
}

/// The octets of the first of these.
pub(crate) fn first_stray(
    alloc: Global,
    ends: &[TrueEnd],
    items: &[Candidate],
) -> Result<Option<Octets>, OutOfMemory>
    ensures { IfOk result (λ octets. octets ≡ first_stray ends.now items.now) }
{
    match items.iter().find(|item| is_stray(ends, item)) {
        Some(item) => Ok(Some(Octets::from_slice(alloc, item.octets.as_slice())?)),
        None => Ok(None),
    }
}

/// True if the candidate is no frame that was sent.
fn is_stray(ends: &[TrueEnd], item: &Candidate) -> bool
    ensures { result ≡ is_stray ends.now item.now }
{
    !is_sent(ends, item)
}
