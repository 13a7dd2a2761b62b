//! The reader of the sound by which a live station tells how it is.
ghost use Rattle.std.specs.Prelude.{◌≡◌, ◌++◌, List};
ghost use Rattle.sample_ring.specs.declared.got.Got.{Got};
ghost use Rattle.sample_ring.specs.Ends.{position_of, reader_ring, ring_id, ring_len};
ghost use Rattle.slicer_bank.specs.RingLanes.{answers_of};
ghost use Rattle.host_ports.specs.Health.{after_answers};
ghost use Rattle.tnc_ports.specs.HeldMeter.{ReadsOnce};
ghost use Rattle.tnc_ports.specs.Measured.{ReadsTo, place_after};

use host_ports::Health;
use sample_ring::{Got, Reader, Ring};
use sound_rate::Outgoing;

/// A reader of the ring, what was counted, and what makes the samples that go out. It reads all samples of a tick before
/// the tick is made.
#[derive(Drop)]
pub struct Meter {
    pub(crate) reader: Reader,
    pub(crate) health: Health,
    pub(crate) out: Outgoing,
}

impl Meter {
    /// Reads on to a position, or until the ring is empty or has ended.
    pub(crate) fn read_to(&mut self, ring: &Ring, to: u64)
        requires { reader_ring self.old.reader ≡ ring_id ring.now }
        ensures ring { reader_ring self.new.reader ≡ reader_ring self.old.reader }
        ensures read { (reads : List Got) × ReadsTo to (position_of self.old.reader) reads
            × (answers_of (ring_len ring.now) self.new.reader
            ≡ answers_of (ring_len ring.now) self.old.reader ++ reads)
            × (position_of self.new.reader ≡ place_after (position_of self.old.reader) reads)
            × (self.new.health ≡ after_answers reads self.old.health) }
        ensures out { self.new.out ≡ self.old.out }
    {
        for _ in self.reader.at()..to {
            if self.reader.at() >= to {
                return;
            }
            if !self.read_once(ring) {
                return;
            }
        }
    }

    /// Reads once, and answers whether that was a sample or a gap.
    fn read_once(&mut self, ring: &Ring) -> bool
        requires { reader_ring self.old.reader ≡ ring_id ring.now }
        ensures ring { reader_ring self.new.reader ≡ reader_ring self.old.reader }
        ensures read { ReadsOnce (ring_len ring.now) result self.old self.new }
    {
        let got = self.reader.read(ring);
        match got {
            Got::Item { sample, .. } => {
                self.health.take_sample(sample);
                true
            }
            Got::Gap { .. } => {
                self.health.miss_samples();
                true
            }
            Got::Empty { .. } | Got::End { .. } => false,
        }
    }
}
