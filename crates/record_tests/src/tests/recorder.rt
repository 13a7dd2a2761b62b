//! A recorder on a ring of eight cells, whose samples are their own positions.
ghost use Rattle.std.specs.Prelude.{◌≡◌, ◌≤◌};
ghost use Rattle.sample_ring.specs.Ends.{ring_id, writer_ring};

use super::wave::wave;
use crate::assertions::assert_equal;
use ring_recorder::{Loss, Recorded, Recorder};
use sample_ring::{Ring, RingFault, Writer};
use std::alloc::Global;
use std::marker::Model;
use std::process::Abort;
use std::test::Fail;
use tnc_base::{MemSink, OutOfMemory};

/// A ring, its writer, and a recorder on its one reader.
#[derive(Drop)]
struct Recording {
    ring: Ring,
    writer: Writer,
    recorder: Recorder,
}

// That the three belong together is its invariant, and no test needs more of it.
impl Model for Recording {
    ghost use Rattle.std.specs.Prelude.{◌≡◌, ⊤};
    ghost use Rattle.sample_ring.specs.Ends.{ring_id, writer_ring, reader_ring};

    ghost Value = { ⊤ };

    ghost view = { λ _. tt };

    ghost invariant = { λ s. (writer_ring s.writer ≡ ring_id s.ring)
        × (reader_ring s.recorder.reader ≡ ring_id s.ring) };
}

impl Recording {
    fn new(alloc: Global, keep: u32) -> Result<Recording, RingFault>
        requires { (1 ≤ keep) × (keep ≤ 17280000) }
    {
        let (ring, writer, mut readers) = Ring::new(alloc, 8, 1)?;
        let Some(reader) = readers.pop() else {
            return Err(RingFault::Memory);
        };
        let Ok(recorder) = Recorder::new(alloc, reader, keep) else {
            return Err(RingFault::Memory);
        };
        Ok(Recording {
            ring,
            writer,
            recorder,
        })
    }

    fn publish<R: Abort>(&mut self, rt: &R, samples: &[i16]) {
        for sample in samples {
            self.publish_one(rt, *sample);
        }
    }

    fn publish_one<R: Abort>(&mut self, rt: &R, sample: i16) {
        assert!(*rt; self.writer.publish(&self.ring, sample).is_ok());
    }

    fn advance(&mut self) -> Result<Recorded, OutOfMemory> {
        self.recorder.advance(&self.ring)
    }

    /// Ends the ring, and advances once more.
    fn end(self) -> Result<(Recorder, Recorded), OutOfMemory> {
        let Recording {
            ring,
            writer,
            mut recorder,
        } = self;
        writer.end(&ring);
        let last = recorder.advance(&ring)?;
        Ok((recorder, last))
    }
}

/// What a recorder of at most so many samples is to keep: the samples before each turn, the losses, and the sound.
struct Case {
    keep: u32,
    turns: &'static [&'static [i16]],
    losses: &'static [Loss],
    sound: &'static [i16],
    at: u64,
}

/// As many samples as two rounds of the ring and a half have.
const TWENTY: &[i16] = &[
    0, 1, 2, 3, 4, 5, 6, 7, 8, 9, 10, 11, 12, 13, 14, 15, 16, 17, 18, 19,
];

/// The ring keeps the last eight: 12 to 19 of the first twenty, and 32 to 39 of the next.
const CASES: &[Case] = &[
    Case {
        keep: 10,
        turns: &[&[1, -2, 300]],
        losses: &[],
        sound: &[1, -2, 300],
        at: 3,
    },
    Case {
        keep: 2,
        turns: &[&[1, -2], &[300]],
        losses: &[],
        sound: &[-2, 300],
        at: 3,
    },
    Case {
        keep: 8,
        turns: &[TWENTY],
        losses: &[Loss { from: 0, to: 12 }],
        sound: &[12, 13, 14, 15, 16, 17, 18, 19],
        at: 20,
    },
    Case {
        keep: 9,
        turns: &[TWENTY, &[], TWENTY],
        losses: &[Loss { from: 0, to: 12 }, Loss { from: 20, to: 32 }],
        sound: &[19, 12, 13, 14, 15, 16, 17, 18, 19],
        at: 40,
    },
];

/// Advances a recorder past each turn's samples, ends the ring, and ends the test unless all is as the case says.
fn assert_kept<R: Abort>(rt: &R, alloc: Global, case: &Case) -> Result<(), Fail> {
    assert!(*rt; case.keep >= 1 && case.keep <= 20);
    let mut recording = Recording::new(alloc, case.keep)?;
    for samples in case.turns {
        recording.publish(rt, samples);
        assert!(*rt; !recording.advance()?.ended);
    }
    let (recorder, last) = recording.end()?;
    let wanted = Recorded {
        at: case.at,
        ended: true,
    };
    assert_equal(rt, &last, &wanted);
    assert!(*rt; recorder.losses() == case.losses);
    let mut output = MemSink::new(alloc, 1000, Vec::new(alloc))?;
    assert!(*rt; recorder.write(&mut output).is_ok());
    assert!(*rt; output.written() == wave(alloc, case.sound)?.as_slice());
    assert_equal(rt, &recorder.finish().at(), &case.at);
    Ok(())
}

#[test]
fn the_last_samples_and_all_losses_are_kept(rt: HostRuntime) -> Result<(), Fail> {
    for case in CASES {
        assert_kept(&rt, rt.alloc(), case)?;
    }
    Ok(())
}

// The second write is that of the samples: the head stays.
#[test]
fn a_write_that_fails_leaves_a_first_part(rt: HostRuntime) -> Result<(), Fail> {
    let alloc = rt.alloc();
    let mut recording = Recording::new(alloc, 10)?;
    recording.publish(&rt, TWENTY);
    recording.advance()?;
    let mut output = MemSink::new(alloc, 1000, [1].to_vec(alloc)?)?;
    assert!(rt; recording.recorder.write(&mut output).is_err());
    assert_equal(&rt, &output.written().len(), &44);
    Ok(())
}
