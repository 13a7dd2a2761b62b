//! Items of a stretch, counted from the begin of the input.

ghost use Rattle.std.specs.Prelude.{◌≡◌, ◌+◌, ◌^◌, ◌<◌, ◌++◌, map, IfOk, OnOk};
ghost use Rattle.std.specs.List.{All};
ghost use Rattle.fx25_ring.specs.HeardInBlocks.{placed};

use frame_merge::Candidate;
use fx25_receiver::Heard;
use std::alloc::Global;
use tnc_base::{Octets, OutOfMemory};

/// Adds what was heard in a stretch that begins at a place.
pub(crate) fn place_all(
    alloc: Global,
    begin: u64,
    heard: &[Heard],
    items: &mut Vec<Candidate>,
) -> Result<(), OutOfMemory>
    ensures { OnOk result (All (λ item. begin + item.end < 2 ^ 64) heard.now
        → items.new.items ≡ items.old.items ++ map (placed begin) heard.now) }
{
    for item in heard {
        items.push(place(alloc, begin, item)?)?;
    }
    Ok(())
}

/// An item of a stretch that begins at a place.
fn place(alloc: Global, begin: u64, item: &Heard) -> Result<Candidate, OutOfMemory>
    ensures { IfOk result (λ candidate. begin + item.now.end < 2 ^ 64 → candidate ≡ placed begin item.now) }
{
    let end = begin.saturating_add(item.end);
    Ok(Candidate {
        end,
        offset: (end % 8) as u8,
        octets: Octets::from_slice(alloc, item.octets.as_slice())?,
    })
}
