//! From places in a stretch of samples to places in the whole input.

ghost use Rattle.std.specs.Prelude.{◌≡◌, ℕ, ◌+◌, ◌++◌, ◌<◌, ◌≤◌, ◌^◌, map, OnOk};
ghost use Rattle.std.specs.List.{All};
ghost use Rattle.sensitive_receiver.specs.Found.{CanBePutFrom, HasRoom, IsAddedFrom};
ghost use Rattle.ring_receiver.specs.AddedOnRing.{moved};

use frame_merge::Candidate;
use tnc_base::OutOfMemory;

/// Adds what was heard in a stretch to what was found, with its ends counted from the begin of the input.
pub(crate) fn add_moved(
    found: &mut Vec<Candidate>,
    heard: Vec<Candidate>,
    begin: u64,
) -> Result<(), OutOfMemory>
    requires begin { begin < 2 ^ 48 }
    requires room { All HasRoom heard.items }
    ensures found { OnOk result (found.new.items ≡ found.old.items ++ map (moved begin) heard.items) }
    ensures bounds { (low from : ℕ) → from ≤ begin + low → All (IsAddedFrom low) heard.items
        → OnOk result (All (CanBePutFrom from) found.old.items → All (CanBePutFrom from) found.new.items) }
{
    for item in heard {
        found.push(Candidate {
            end: begin + item.end,
            offset: item.offset,
            octets: item.octets,
        })?;
    }
    Ok(())
}
