//! Which candidates of an ordered list are given for a stretch of ends.

ghost use Rattle.std.specs.Prelude.{◌≡◌, IfOk};
ghost use Rattle.std.specs.List.{list_any};
ghost use Rattle.frame_merge.specs.Order.{IsInOrder};
ghost use Rattle.frame_merge.specs.Merged.{merged, between, repeats, is_ready_after};

use crate::candidate::Candidate;
use std::alloc::Global;
use tnc_base::OutOfMemory;

/// The merged candidates of `items`, which are in order, that end from `from` to below `to`.
pub(crate) fn ready_between(
    alloc: Global,
    items: &[Candidate],
    from: u64,
    to: u64,
) -> Result<Vec<Candidate>, OutOfMemory>
    requires { IsInOrder items.now }
    ensures { IfOk result (λ ready. ready.items ≡ between from to (merged items.now)) }
{
    let mut ready = Vec::new(alloc);
    for (index, item) in items.iter().enumerate() {
        if is_ready(&items[..index], item, from, to) {
            ready.push(item.copy(alloc)?)?;
        }
    }
    Ok(ready)
}

/// True if `item` ends from `from` to below `to` and repeats none of `earlier`, which are in order.
fn is_ready(earlier: &[Candidate], item: &Candidate, from: u64, to: u64) -> bool
    requires { IsInOrder earlier.now }
    ensures { result ≡ is_ready_after from to earlier.now item.now }
{
    from <= item.end && item.end < to && !is_repeated(earlier, item)
}

/// True if `item` repeats one of `earlier`, which are in order. Those that end too early are not looked at.
fn is_repeated(earlier: &[Candidate], item: &Candidate) -> bool
    requires { IsInOrder earlier.now }
    ensures { result ≡ list_any (repeats item.now) earlier.now }
{
    let mut rest = earlier;
    while let Some((last, before)) = rest.split_last() {
        if last.end < item.end.saturating_sub(15) {
            return false;
        }
        if item.repeats(last) {
            return true;
        }
        rest = before;
    }
    false
}
