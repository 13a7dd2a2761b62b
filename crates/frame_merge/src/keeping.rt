//! Which candidates of an ordered list are kept.

ghost use Rattle.std.specs.Prelude.{◌≡◌};
ghost use Rattle.frame_merge.specs.Merged.{not_below};

use crate::candidate::Candidate;

/// Forgets the candidates that end below `position`.
pub(crate) fn forget_below(items: &mut Vec<Candidate>, position: u64)
    ensures { items.new.items ≡ not_below position items.old.items }
{
    items.retain(|item| item.end >= position);
}
