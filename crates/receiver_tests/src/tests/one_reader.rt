//! A live station's receiver of one reader over a ring: of blocks of FX.25 and of short wave, with the plain lanes alone and with
//! the added ones.

ghost use Rattle.slicer_bank.specs.declared.detection.Detection.TheVariants.{Flags};
ghost use Rattle.live_receiver.specs.Listening.{CanBeAskedBy};

use crate::tests::assertions::assert_equal;
use crate::tests::blocks_by_all_lanes::fast_block;
use crate::tests::publishing::{publish, publish_silence};
use crate::tests::worked_signal::SHORTEST;
use hf_sender::hf_transmission;
use live_receiver::{Listening, LiveReceiver, readers_wanted};
use sample_ring::{Ring, RingFault, Writer};
use slicer_bank::{Detection, OpenGate};
use std::alloc::Global;
use std::marker::Model;
use std::process::Abort;
use std::test::Fail;
use std::thread::Threads;
use tnc_base::{Octets, OutOfMemory};

/// A ring, its writer, and a receiver of its readers.
#[derive(Drop)]
struct LiveOnRing {
    ring: Ring,
    writer: Writer,
    receiver: LiveReceiver,
}

// That the three belong together is its invariant, and no test needs more of it.
impl Model for LiveOnRing {
    ghost use Rattle.std.specs.Prelude.{◌≡◌, ⊤};
    ghost use Rattle.std.specs.List.{All};
    ghost use Rattle.sample_ring.specs.Ends.{ring_id, writer_ring, reader_ring};
    ghost use Rattle.live_receiver.specs.LiveReceivers.{readers_in};

    ghost Value = { ⊤ };

    ghost view = { λ _. tt };

    ghost invariant = { λ s. (writer_ring s.writer ≡ ring_id s.ring)
        × All (λ reader. reader_ring reader ≡ ring_id s.ring) (readers_in s.receiver) };
}

impl LiveOnRing {
    /// A ring of 2048 cells, and a receiver that hears other stations from three flags in a row on.
    fn new(alloc: Global, listening: Listening) -> Result<LiveOnRing, RingFault>
        requires { CanBeAskedBy listening (Flags 3) }
    {
        let (ring, writer, readers) = Ring::new(alloc, 2048, readers_wanted(listening))?;
        let Ok(receiver) = LiveReceiver::new(alloc, readers, Detection::Flags(3), listening) else {
            return Err(RingFault::Memory);
        };
        Ok(LiveOnRing {
            ring,
            writer,
            receiver,
        })
    }

    /// Publishes so many samples of silence, with no turn between.
    fn miss<R: Abort>(&mut self, rt: &R, count: usize) {
        publish_silence(rt, &self.ring, &mut self.writer, count);
    }

    /// What a turn after more samples brings: how many frames, and how many gaps.
    fn turn<R: Abort + Threads + Sync>(
        &mut self,
        rt: &R,
        samples: &[i16],
    ) -> Result<(usize, usize), OutOfMemory> {
        publish(rt, &self.ring, &mut self.writer, samples);
        let heard = self.receiver.advance(rt, &self.ring, &OpenGate)?;
        Ok((heard.items.len(), heard.gaps.len()))
    }
}

/// How many frames are heard in samples that come after a gap, and whether gaps are told. Of 3000 samples the reader misses the
/// first 952 one by one. The lanes begin anew after each of them.
fn heard_after_a_gap<R: Abort + Threads + Sync>(
    rt: &R,
    alloc: Global,
    listening: Listening,
    samples: &[i16],
) -> Result<(usize, bool), Fail>
    requires { CanBeAskedBy listening (Flags 3) }
{
    let mut receiver = LiveOnRing::new(alloc, listening)?;
    receiver.miss(rt, 3000);
    let mut heard: usize = 0;
    let mut gaps: usize = 0;
    for piece in samples.chunks(1000) {
        let (more, missed) = receiver.turn(rt, piece)?;
        heard = heard.saturating_add(more);
        gaps = gaps.saturating_add(missed);
    }
    Ok((heard, gaps > 0))
}

#[test]
fn a_fast_block_after_a_gap_is_heard_by_all_lanes_alone(rt: HostRuntime) -> Result<(), Fail> {
    let alloc = rt.alloc();
    let samples = fast_block(&rt, alloc)?;
    for (sensitive, frames) in [(false, 0), (true, 1)] {
        let listening = Listening::Fx25 { sensitive };
        let heard = heard_after_a_gap(&rt, alloc, listening, &samples)?;
        assert_equal(&rt, &(sensitive, heard), &(sensitive, (frames, true)));
    }
    Ok(())
}

/// The sound of the shortest frame from a sender whose clock is fast by a hundredth.
fn hurried(alloc: Global) -> Result<Vec<i16>, Fail> {
    let frame = Octets::from_slice(alloc, &SHORTEST)?;
    let sound = hf_transmission(alloc, 10_000, std::slice::from_ref(&frame), 8, 3)?;
    let mut samples = Vec::new(alloc);
    for (place, sample) in sound.into_iter().enumerate() {
        if place % 100 != 99 {
            samples.push(sample)?;
        }
    }
    Ok(samples)
}

#[test]
fn a_hurried_frame_after_a_gap_is_heard_by_the_added_lanes_alone(
    rt: HostRuntime,
) -> Result<(), Fail> {
    let alloc = rt.alloc();
    let samples = hurried(alloc)?;
    for (sensitive, frames) in [(false, 0), (true, 1)] {
        let listening = Listening::ShortWave { sensitive };
        let heard = heard_after_a_gap(&rt, alloc, listening, &samples)?;
        assert_equal(&rt, &(sensitive, heard), &(sensitive, (frames, true)));
    }
    Ok(())
}
