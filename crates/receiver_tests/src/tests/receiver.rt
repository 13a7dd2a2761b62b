//! A receiver over a ring, with the eight lanes alone and with all 26.

ghost use Rattle.std.specs.Prelude.{◌≡◌, length as count};

use crate::tests::assertions::assert_equal;
use crate::tests::noisy_signal::in_noise;
use crate::tests::places::note;
use crate::tests::publishing::publish;
use crate::tests::worked_signal::transmission;
use ring_receiver::{Heard, RingReceiver, readers_wanted};
use sample_ring::{Ring, RingFault, Writer};
use slicer_bank::{Detection, OpenGate};
use std::alloc::Global;
use std::marker::Model;
use std::process::Abort;
use std::test::Fail;
use std::thread::Threads;
use tnc_base::OutOfMemory;

/// A ring, its writer, and a receiver of its readers.
#[derive(Drop)]
struct ReceiverOnRing {
    ring: Ring,
    writer: Writer,
    receiver: RingReceiver,
}

// That the three belong together is its invariant, and no test needs more of it.
impl Model for ReceiverOnRing {
    ghost use Rattle.std.specs.Prelude.{◌≡◌, ⊤};
    ghost use Rattle.std.specs.List.{All};
    ghost use Rattle.sample_ring.specs.Ends.{ring_id, writer_ring, reader_ring};
    ghost use Rattle.ring_receiver.specs.HeldReceiver.{readers_in};

    ghost Value = { ⊤ };

    ghost view = { λ _. tt };

    ghost invariant = { λ s. (writer_ring s.writer ≡ ring_id s.ring)
        × All (λ reader. reader_ring reader ≡ ring_id s.ring) (readers_in s.receiver) };
}

impl ReceiverOnRing {
    /// A ring of so many cells.
    fn new(alloc: Global, len: u32, sensitive: bool) -> Result<ReceiverOnRing, RingFault> {
        let (ring, writer, readers) = Ring::new(alloc, len, readers_wanted(sensitive))?;
        let Ok(receiver) = RingReceiver::new(alloc, readers, Detection::Flags(1), sensitive) else {
            return Err(RingFault::Memory);
        };
        Ok(ReceiverOnRing {
            ring,
            writer,
            receiver,
        })
    }

    fn publish<R: Abort>(&mut self, rt: &R, samples: &[i16]) {
        publish(rt, &self.ring, &mut self.writer, samples);
    }

    /// A turn that no gate holds.
    fn turn<R: Threads + Sync>(&mut self, rt: &R) -> Result<Heard, OutOfMemory> {
        self.receiver.advance(rt, &self.ring, &OpenGate)
    }

    /// What the receiver hears of samples that are published 48 at a time.
    fn heard<R: Abort + Threads + Sync>(
        &mut self,
        rt: &R,
        alloc: Global,
        samples: &[i16],
    ) -> Result<Vec<(u64, u8)>, OutOfMemory> {
        let mut places = Vec::new(alloc);
        for piece in samples.chunks(48) {
            self.publish(rt, piece);
            note(rt, &mut places, self.turn(rt)?.items)?;
        }
        Ok(places)
    }

    fn busy(&self) -> bool {
        self.receiver.busy()
    }

    /// Ends the ring: what the last turn gives, whether there is no turn after it, and how many readers the receiver
    /// gives back.
    fn end<R: Threads + Sync>(self, rt: &R) -> Result<(Heard, bool, usize), OutOfMemory> {
        let ReceiverOnRing {
            ring,
            writer,
            mut receiver,
        } = self;
        writer.end(&ring);
        let last = receiver.advance(rt, &ring, &OpenGate)?;
        let is_over = receiver.advance(rt, &ring, &OpenGate).is_err();
        Ok((last, is_over, receiver.finish().len()))
    }
}

/// Ends the test unless a turn ends a ring of so many samples with no gap, and brings the last of these items.
fn assert_last<R: Abort>(
    rt: &R,
    last: Heard,
    samples: usize,
    mut places: Vec<(u64, u8)>,
    items: &[(u64, u8)],
) -> Result<(), Fail> {
    assert_equal(rt, &(last.ended, last.gaps.len()), &(true, 0));
    assert_equal(rt, &last.least, &(samples as u64));
    note(rt, &mut places, last.items)?;
    assert_equal(rt, &places.as_slice(), &items);
    Ok(())
}

/// Ends the test unless a receiver gives these items of samples, and then ends with the ring.
fn assert_hears<R: Abort + Threads + Sync>(
    rt: &R,
    alloc: Global,
    sensitive: bool,
    samples: &[i16],
    items: &[(u64, u8)],
) -> Result<(), Fail> {
    let mut receiver = ReceiverOnRing::new(alloc, 2048, sensitive)?;
    let places = receiver.heard(rt, alloc, samples)?;
    let (last, is_over, readers) = receiver.end(rt)?;
    assert!(*rt; is_over);
    assert_equal(rt, &readers, &usize::from(readers_wanted(sensitive)));
    assert_last(rt, last, samples.len(), places, items)
}

#[test]
fn a_frame_in_noise_is_heard_by_the_added_lanes_alone(rt: HostRuntime) -> Result<(), Fail> {
    let clean = transmission(&rt, rt.alloc())?;
    let noisy = in_noise(rt.alloc(), &clean)?;
    assert_hears(&rt, rt.alloc(), false, &clean, &[(1294, 6)])?;
    assert_hears(&rt, rt.alloc(), true, &clean, &[(1294, 6)])?;
    assert_hears(&rt, rt.alloc(), false, &noisy, &[])?;
    assert_hears(&rt, rt.alloc(), true, &noisy, &[(1295, 18)])?;
    Ok(())
}

/// Ends the test unless a turn of all lanes brings a gap to sample 636 of 700 for the added ones.
fn assert_is_lapped<R: Abort>(rt: &R, lost: &Heard) {
    let last = lost.gaps.iter().filter(|gap| gap.lane == 8).last();
    assert_equal(rt, &last.map(|gap| gap.to), &Some(636));
    assert_equal(rt, &(lost.gaps.len() % 9, lost.least), &(0, 700));
}

/// Ends the test unless a receiver of 64 cells, lapped in a frame, hears nothing of the rest and then the frame anew.
fn assert_starts_anew<R: Abort + Threads + Sync>(
    rt: &R,
    alloc: Global,
    receiver: &mut ReceiverOnRing,
    noisy: &[i16],
) -> Result<(), Fail>
    requires { count noisy.now ≡ 1360 }
{
    let (first, rest) = noisy.split_at(700);
    receiver.publish(rt, first);
    assert_is_lapped(rt, &receiver.turn(rt)?);
    let places = receiver.heard(rt, alloc, rest)?;
    assert_equal(rt, &places.len(), &0);
    let places = receiver.heard(rt, alloc, noisy)?;
    assert_equal(rt, &places.as_slice(), &[(1360 + 1295, 18)].as_slice());
    Ok(())
}

#[test]
fn a_gap_starts_the_added_lanes_anew(rt: HostRuntime) -> Result<(), Fail> {
    let sent = transmission(&rt, rt.alloc())?;
    let noisy = in_noise(rt.alloc(), &sent)?;
    assert!(rt; noisy.len() == 1360);
    let mut receiver = ReceiverOnRing::new(rt.alloc(), 64, true)?;
    assert_starts_anew(&rt, rt.alloc(), &mut receiver, &noisy)
}

/// Ends the test unless samples make a receiver busy.
fn assert_makes_busy<R: Abort + Threads + Sync>(
    rt: &R,
    alloc: Global,
    sensitive: bool,
    samples: &[i16],
) -> Result<(), Fail> {
    let mut receiver = ReceiverOnRing::new(alloc, 2048, sensitive)?;
    let before = receiver.busy();
    receiver.publish(rt, samples);
    let ended = receiver.turn(rt)?.ended;
    assert_equal(
        rt,
        &(sensitive, before, ended, receiver.busy()),
        &(sensitive, false, false, true),
    );
    Ok(())
}

#[test]
fn a_transmission_makes_a_receiver_busy(rt: HostRuntime) -> Result<(), Fail> {
    let sent = transmission(&rt, rt.alloc())?;
    assert_makes_busy(&rt, rt.alloc(), false, &sent)?;
    assert_makes_busy(&rt, rt.alloc(), true, &sent)
}
