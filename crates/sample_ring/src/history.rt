//! What is left of a closed ring.
ghost use Rattle.std.specs.Prelude.{◌≡◌, ◌+◌, true, [], ◌∷◌, ◌++◌, length};
ghost use Rattle.std.specs.List.{All};

use crate::reader::Reader;
use crate::ring::Ring;
use crate::rule::{Keep, Settle};
use crate::view::View;
use atomic_table::Seat;

/// The published list and the readers' records of a closed ring, for contracts to see, and the count of samples.
#[derive(Drop)]
pub struct History {
    pub(crate) count: u64,
    pub(crate) seat: Seat<(), View>,
    ghost counts: { length seat.me.0.published ≡ count },
    ghost writes: { seat.me.0.writes ≡ true },
    ghost over: { seat.me.0.ended ≡ true },
    ghost lives: { seat.me.0.lives ≡ true },
    ghost sized: { seat.table_id.words ≡ seat.me.0.len + 1 },
}

impl History {
    ghost use Rattle.sample_ring.specs.Ends.{ring_id, ring_len, history_ring, reader_ring, record_of, listed};
    ghost use Rattle.sample_ring.specs.Ends.{records_of};
    ghost use Rattle.sample_ring.specs.Record.{StandsIn};

    /// How many samples were published.
    pub fn total(&self) -> u64
        ensures { result ≡ length (listed self.now) }
    {
        self.count
    }

    // Keeps the record of one more reader.
    pub(crate) fn keep(&mut self, ring: &Ring, reader: Reader)
        requires ring { history_ring self.old ≡ ring_id ring.now }
        requires reader { reader_ring reader ≡ ring_id ring.now }
        ensures ring { history_ring self.new ≡ history_ring self.old }
        ensures list { listed self.new ≡ listed self.old }
        ensures kept { records_of self.new ≡ records_of self.old ++ record_of reader ∷ [] }
        ensures stand { All (StandsIn (ring_len ring.now) (listed self.new) true) (records_of self.new) }
    {
        let Reader { at: _, seat } = reader;
        let shared = &ring.table.shared;
        shared.join_seat::<Keep>(&mut self.seat, seat);
        shared.load::<Settle>(&mut self.seat, 0);
    }
}
