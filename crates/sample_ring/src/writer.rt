//! The writer: the one end of a ring that publishes.
ghost use Rattle.std.specs.Prelude.{◌≡◌, ℕ, ◌+◌, ◌-◌, ◌^◌, ◌<◌, ◌↔◌, true, false, [], ◌∷◌, ◌++◌, length, OnOk, OnErr};
ghost use Rattle.std.specs.Prelude.{IfOk, IsErr};
ghost use Rattle.std.specs.List.{All};

use crate::cell::word_at;
use crate::note::Note;
use crate::reader::Reader;
use crate::ring::Ring;
use crate::rule::{Finish, NoteCut, Publish};
use crate::view::View;
use atomic_table::Seat;
use std::alloc::{AllocError, Global};
use thiserror::Error;

/// The most samples that a ring takes: a lap has the upper 48 bits of a word.
const MOST_SAMPLES: u64 = 0xffff_ffff_fffe;

/// Publishes the samples of one ring.
#[derive(Drop)]
pub struct Writer {
    pub(crate) count: u64,
    pub(crate) seat: Seat<(), View>,
    ghost counts: { length seat.me.0.published ≡ count },
    ghost room: { count < 2 ^ 48 - 1 },
    ghost writes: { seat.me.0.writes ≡ true },
    ghost active: { seat.me.0.ended ≡ false },
    ghost lives: { seat.me.0.lives ≡ true },
    ghost fresh: { seat.me.0.kept ≡ [] },
    ghost bare: { seat.me.1 ≡ [] },
    ghost sized: { seat.table_id.words ≡ seat.me.0.len + 1 },
}

/// A writer that has ended its ring.
#[derive(Drop)]
pub struct WriterDone {
    pub(crate) count: u64,
    pub(crate) seat: Seat<(), View>,
    ghost counts: { length seat.me.0.published ≡ count },
    ghost writes: { seat.me.0.writes ≡ true },
    ghost over: { seat.me.0.ended ≡ true },
    ghost lives: { seat.me.0.lives ≡ true },
    ghost fresh: { seat.me.0.kept ≡ [] },
    ghost bare: { seat.me.1 ≡ [] },
    ghost sized: { seat.table_id.words ≡ seat.me.0.len + 1 },
}

/// 2^48 - 2 samples are published, which is as many as a ring takes.
#[derive(Clone, Copy, Debug, PartialEq, Eq, Error)]
#[error("the ring can number no more samples")]
pub struct RingEnd;

impl Writer {
    ghost use Rattle.sample_ring.specs.Ends.{ring_id, writer_ring, done_ring, note_ring, reader_ring, published_by};
    ghost use Rattle.sample_ring.specs.Ends.{all_published, count_of, IsNew};

    /// Appends one sample, by one store. It never waits. After a refusal nothing has changed.
    pub fn publish(&mut self, ring: &Ring, sample: i16) -> Result<(), RingEnd>
        requires { writer_ring self.old ≡ ring_id ring.now }
        ensures ring { writer_ring self.new ≡ writer_ring self.old }
        ensures appended { OnOk result (published_by self.new ≡ published_by self.old ++ sample ∷ []) }
        ensures refused { OnErr result (published_by self.new ≡ published_by self.old) }
        ensures exactly { IsErr result ↔ (length (published_by self.old) ≡ 2 ^ 48 - 2) }
    {
        if self.count == MOST_SAMPLES {
            return Err(RingEnd);
        }
        let place = (self.count % ring.len as u64) as usize;
        let word = word_at(self.count, sample);
        ring.table
            .shared
            .store::<Publish>(&mut self.seat, place, word);
        self.count += 1;
        Ok(())
    }

    /// How many samples are published.
    pub fn published(&self) -> u64
        ensures { result ≡ length (published_by self.now) }
    {
        self.count
    }

    /// A token that so many samples are published, for one reader of this ring.
    pub fn note(&mut self, ring: &Ring) -> Note
        requires { writer_ring self.old ≡ ring_id ring.now }
        ensures ring { (writer_ring self.new ≡ writer_ring self.old) × (note_ring result ≡ writer_ring self.old) }
        ensures count { count_of result ≡ length (published_by self.old) }
        ensures same { published_by self.new ≡ published_by self.old }
    {
        let seat = ring.table.shared.split_seat::<NoteCut>(&mut self.seat);
        Note {
            count: self.count,
            seat,
        }
    }

    // So many readers at position 0, of a ring with nothing published.
    pub(crate) fn first_readers(
        &mut self,
        alloc: Global,
        ring: &Ring,
        count: usize,
    ) -> Result<Vec<Reader>, AllocError>
        requires ring { writer_ring self.old ≡ ring_id ring.now }
        requires nothing { published_by self.old ≡ [] }
        ensures readers { IfOk result (λ ends. (length ends.items ≡ count)
            × All (λ reader. (reader_ring reader ≡ ring_id ring.now) × IsNew reader) ends.items) }
        ensures ring { writer_ring self.new ≡ writer_ring self.old }
        ensures same { published_by self.new ≡ [] }
    {
        let mut ends = Vec::with_capacity(alloc, count)?;
        for _ in 0..count {
            ends.push(self.first_reader(ring))?;
        }
        Ok(ends)
    }

    fn first_reader(&mut self, ring: &Ring) -> Reader
        requires ring { writer_ring self.old ≡ ring_id ring.now }
        requires nothing { published_by self.old ≡ [] }
        ensures ring { (writer_ring self.new ≡ writer_ring self.old) × (reader_ring result ≡ writer_ring self.old) }
        ensures new { IsNew result }
        ensures same { published_by self.new ≡ [] }
    {
        let seat = ring.table.shared.split_seat::<NoteCut>(&mut self.seat);
        Reader { at: 0, seat }
    }

    /// Ends the ring: readers that have passed all samples are told the total from now on. It never waits.
    pub fn end(self, ring: &Ring) -> WriterDone
        requires { writer_ring self ≡ ring_id ring.now }
        ensures ring { done_ring result ≡ writer_ring self }
        ensures list { all_published result ≡ published_by self }
    {
        let Writer { count, mut seat } = self;
        ring.table
            .shared
            .store::<Finish>(&mut seat, ring.len, count + 1);
        WriterDone { count, seat }
    }
}
