//! Each frame once: what is kept of what was heard, and what of it is given.
ghost use Rattle.std.specs.Prelude.{◌≡◌, ◌+◌, ◌≤◌, ℕ, List, [], ◌∷◌, ◌++◌, OnOk, if◌then◌else◌};
ghost use Rattle.std.specs.List.{list_any};
ghost use Rattle.fx25_receiver.specs.declared.heard.Heard.{Heard};
ghost use Rattle.fx25_receiver.specs.Held.{Keeps};
ghost use Rattle.fx25_receiver.specs.Merged.{merged, repeats};

use crate::heard::{Heard, REACH};
use std::alloc::Global;
use tnc_base::OutOfMemory;

/// Takes what was heard next, and adds it to `given` unless it repeats what is kept.
pub fn put(
    alloc: Global,
    item: Heard,
    kept: &mut Vec<Heard>,
    given: &mut Vec<Heard>,
) -> Result<(), OutOfMemory>
    ensures keeps { OnOk result ((count : ℕ) (heard : List Heard) → count ≤ item.end → Keeps kept.old.items count heard
        → Keeps kept.new.items count (heard ++ item ∷ [])) }
    ensures given { OnOk result ((count : ℕ) (heard before : List Heard) → count ≤ item.end
        → Keeps kept.old.items count heard → before ++ given.old.items ≡ merged heard
        → before ++ given.new.items ≡ merged (heard ++ item ∷ [])) }
{
    let repeated = is_repeated(kept, &item);
    give(alloc, repeated, &item, given)?;
    kept.push(item)?;
    Ok(())
}

/// Gives an item unless it repeats another.
fn give(
    alloc: Global,
    repeated: bool,
    item: &Heard,
    given: &mut Vec<Heard>,
) -> Result<(), OutOfMemory>
    ensures { OnOk result (given.new.items ≡ given.old.items ++ (if repeated then [] else item.now ∷ [])) }
{
    if !repeated {
        given.push(item.copy(alloc)?)?;
    }
    Ok(())
}

/// True if `item` repeats one of `earlier`.
fn is_repeated(earlier: &[Heard], item: &Heard) -> bool
    ensures { result ≡ list_any (repeats item.now) earlier.now }
{
    for other in earlier {
        if item.repeats(other) {
            return true;
        }
    }
    false
}

/// Forgets what no frame to come can repeat, once so many samples were taken.
pub fn forget(kept: &mut Vec<Heard>, count: u64)
    ensures { (heard : List Heard) (was : ℕ) → was ≤ count → Keeps kept.old.items was heard
        → Keeps kept.new.items count heard }
{
    kept.retain(|item| item.end >= count.saturating_sub(REACH));
}
