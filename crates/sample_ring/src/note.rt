//! A note: a token that so many samples are published.
ghost use Rattle.std.specs.Prelude.{◌≡◌, ◌+◌, true, []};

use crate::view::View;
use atomic_table::Seat;

/// A token that so many samples are published. A writer makes it and a reader learns it.
#[derive(Drop)]
pub struct Note {
    pub(crate) count: u64,
    pub(crate) seat: Seat<(), View>,
    ghost counts: { seat.me.0.known ≡ count },
    ghost bare: { seat.me.1 ≡ [] },
    ghost sized: { seat.table_id.words ≡ seat.me.0.len + 1 },
}

impl Note {
    ghost use Rattle.sample_ring.specs.Ends.{count_of};

    /// The count.
    pub fn count(&self) -> u64
        ensures { result ≡ count_of self.now }
    {
        self.count
    }
}
