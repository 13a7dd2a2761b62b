//! A reader: it takes the samples of a ring one by one, or is told exactly what it missed.
ghost use Rattle.std.specs.Prelude.{◌≡◌, ℕ, ◌+◌, ◌≤◌, true, false, [], max};

use crate::cell::{lap_in, sample_in};
use crate::got::Got;
use crate::note::Note;
use crate::ring::Ring;
use crate::rule::{Learn, Look, LookLast, Settle};
use crate::view::View;
use atomic_table::Seat;

/// Reads the samples of one ring, at its own pace.
#[derive(Drop)]
pub struct Reader {
    pub(crate) at: u64,
    pub(crate) seat: Seat<(), View>,
    ghost stands: { seat.me.0.track.at ≡ at },
    ghost lives: { seat.me.0.lives ≡ true },
    ghost calm: { seat.me.0.waits ≡ false },
    ghost bare: { seat.me.1 ≡ [] },
    ghost sized: { seat.table_id.words ≡ seat.me.0.len + 1 },
}

impl Reader {
    ghost use Rattle.sample_ring.specs.Ends.{ring_id, ring_len, reader_ring, note_ring, position_of, known_by};
    ghost use Rattle.sample_ring.specs.Ends.{reads_of, count_of, AddsRead, GoesForward};
    ghost use Rattle.sample_ring.specs.Record.{next};

    /// Reads at the next position, by one load of its cell and, if that is not yet written, one of the end word.
    /// It never waits.
    pub fn read(&mut self, ring: &Ring) -> Got
        requires { reader_ring self.old ≡ ring_id ring.now }
        ensures ring { reader_ring self.new ≡ reader_ring self.old }
        ensures read { AddsRead (ring_len ring.now) self.old result self.new }
        ensures moves { position_of self.new ≡ next result }
        ensures forward { GoesForward (position_of self.old) result }
        ensures known { known_by self.new ≡ known_by self.old }
        ensures empty { (p : ℕ) → result ≡ Got.Empty p → known_by self.old ≤ p }
    {
        let at = self.at;
        let shared = &ring.table.shared;
        let place = (at % ring.len as u64) as usize;
        let cell = shared.load::<Look>(&mut self.seat, place);
        let lap = lap_in(cell);
        if lap <= at {
            let last = shared.load::<LookLast>(&mut self.seat, ring.len);
            if last == at + 1 {
                return Got::End { total: at };
            }
            return Got::Empty { at };
        }
        if lap == at + 1 {
            self.at = lap;
            return Got::Item {
                at,
                sample: sample_in(cell),
            };
        }
        let to = lap - ring.len as u64;
        self.at = to;
        Got::Gap { from: at, to }
    }

    /// Takes in a note, after which no read below its count finds the ring empty.
    pub fn learn(&mut self, ring: &Ring, note: Note)
        requires reader { reader_ring self.old ≡ ring_id ring.now }
        requires note { note_ring note ≡ ring_id ring.now }
        ensures ring { reader_ring self.new ≡ reader_ring self.old }
        ensures known { known_by self.new ≡ max (known_by self.old) (count_of note) }
        ensures same { (position_of self.new ≡ position_of self.old) × (reads_of self.new ≡ reads_of self.old) }
    {
        let Note { count: _, seat } = note;
        let shared = &ring.table.shared;
        shared.join_seat::<Learn>(&mut self.seat, seat);
        shared.load::<Settle>(&mut self.seat, 0);
    }

    /// The position that the next read asks for.
    pub fn at(&self) -> u64
        ensures { result ≡ position_of self.now }
    {
        self.at
    }
}
