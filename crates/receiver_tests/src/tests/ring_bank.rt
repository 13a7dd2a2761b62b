//! A bank over a ring: lanes that wait for one another, a transmission that is heard once, and a writer that laps the
//! readers.

ghost use Rattle.std.specs.Prelude.{◌<◌, ◌≤◌, IfOk};
ghost use Rattle.std.specs.List.{All};
ghost use Rattle.slicer_bank.specs.Detection.{CanBeAsked};
ghost use Rattle.slicer_bank.specs.Merging.{CanBePut};

use crate::tests::assertions::assert_equal;
use crate::tests::meeting::Meeting;
use crate::tests::places::note;
use crate::tests::publishing::{publish, publish_silence};
use crate::tests::worked_signal::transmission;
use frame_merge::{Candidate, Merger};
use nrzi_bits::NrziOut;
use sample_ring::{Ring, RingFault, Writer};
use slicer_bank::{Advance, Detection, Gate, LaneGap, OpenGate, RingBank, merge_advance};
use std::alloc::Global;
use std::marker::Model;
use std::process::Abort;
use std::test::Fail;
use std::thread::Threads;
use tnc_base::OutOfMemory;
use tone_table::{sine, step};

/// The offsets of a bit, each with a lane of its own.
const OFFSETS: u8 = 8;

/// A ring, its writer, and a bank of its eight readers.
#[derive(Drop)]
struct BankOnRing {
    ring: Ring,
    writer: Writer,
    bank: RingBank,
}

// That the three belong together is its invariant, and no test needs more of it.
impl Model for BankOnRing {
    ghost use Rattle.std.specs.Prelude.{◌≡◌, ⊤};
    ghost use Rattle.std.specs.List.{All};
    ghost use Rattle.sample_ring.specs.Ends.{ring_id, writer_ring, reader_ring};
    ghost use Rattle.slicer_bank.specs.RingLanes.{readers_in};

    ghost Value = { ⊤ };

    ghost view = { λ _. tt };

    ghost invariant = { λ s. (writer_ring s.writer ≡ ring_id s.ring)
        × All (λ reader. reader_ring reader ≡ ring_id s.ring) (readers_in s.bank) };
}

impl BankOnRing {
    /// A ring of so many cells.
    fn new(alloc: Global, len: u32) -> Result<BankOnRing, RingFault> {
        let (ring, writer, readers) = Ring::new(alloc, len, OFFSETS)?;
        let Ok(bank) = RingBank::new(alloc, readers) else {
            return Err(RingFault::Memory);
        };
        Ok(BankOnRing { ring, writer, bank })
    }

    /// The same, with a bank that hears other stations as it is asked to.
    fn listening(alloc: Global, len: u32, detection: Detection) -> Result<BankOnRing, RingFault>
        requires { CanBeAsked detection }
    {
        let (ring, writer, readers) = Ring::new(alloc, len, OFFSETS)?;
        let Ok(bank) = RingBank::listening(alloc, readers, detection) else {
            return Err(RingFault::Memory);
        };
        Ok(BankOnRing { ring, writer, bank })
    }

    /// Whether the bank is busy after samples.
    fn busy_after<R: Abort + Threads + Sync>(
        &mut self,
        rt: &R,
        samples: &[i16],
    ) -> Result<bool, OutOfMemory> {
        self.publish(rt, samples);
        self.turn(rt, &OpenGate)?;
        Ok(self.busy())
    }

    fn publish<R: Abort>(&mut self, rt: &R, samples: &[i16]) {
        publish(rt, &self.ring, &mut self.writer, samples);
    }

    fn publish_silence<R: Abort>(&mut self, rt: &R, count: usize) {
        publish_silence(rt, &self.ring, &mut self.writer, count);
    }

    fn turn<R: Threads + Sync, G: Gate>(&mut self, rt: &R, gate: &G) -> Result<Advance, OutOfMemory>
        ensures { IfOk result (λ advance. All CanBePut advance.candidates.items) }
    {
        self.bank.advance(rt, &self.ring, gate)
    }

    /// What the bank hears of samples that are published 48 at a time.
    fn heard<R: Abort + Threads + Sync>(
        &mut self,
        rt: &R,
        alloc: Global,
        samples: &[i16],
    ) -> Result<Vec<(u64, u8)>, OutOfMemory> {
        let mut places = Vec::new(alloc);
        for piece in samples.chunks(48) {
            self.publish(rt, piece);
            let advance = self.turn(rt, &OpenGate)?;
            note(rt, &mut places, advance.candidates)?;
        }
        Ok(places)
    }

    fn busy(&self) -> bool {
        self.bank.busy()
    }

    /// Ends the ring: what the last turn gives, and how many readers the bank gives back.
    fn end<R: Threads + Sync>(self, rt: &R) -> Result<(Advance, usize), OutOfMemory> {
        let BankOnRing {
            ring,
            writer,
            mut bank,
        } = self;
        writer.end(&ring);
        let last = bank.advance(rt, &ring, &OpenGate)?;
        Ok((last, bank.finish().len()))
    }
}

/// Ends the test unless all lanes stand at a position after a turn that brought no candidate, and so many gaps.
fn assert_hears_nothing<R: Abort>(
    rt: &R,
    advance: Advance,
    position: u64,
    gap_count: usize,
    has_ended: bool,
) {
    let Advance {
        positions,
        candidates,
        gaps,
        ended,
    } = advance;
    assert_equal(rt, &positions, &[position; 8]);
    assert_equal(
        rt,
        &(candidates.len(), gaps.len(), ended),
        &(0, gap_count, has_ended),
    );
}

#[test]
fn lanes_of_two_threads_meet(rt: HostRuntime) -> Result<(), Fail> {
    let mut bank = BankOnRing::new(rt.alloc(), 64)?;
    bank.publish_silence(&rt, 8);
    let meeting = Meeting::with_lane(7);
    assert_hears_nothing(&rt, bank.turn(&rt, &meeting)?, 8, 0, false);
    assert_equal(&rt, &meeting.counts(), &[1, 1, 0]);
    let (last, readers) = bank.end(&rt)?;
    assert_hears_nothing(&rt, last, 8, 0, true);
    assert_equal(&rt, &readers, &8);
    Ok(())
}

/// The items of what eight lanes heard up to these positions.
fn merged<R: Abort>(
    rt: &R,
    alloc: Global,
    candidates: Vec<Candidate>,
    positions: &[u64; 8],
    ended: bool,
) -> Result<Vec<(u64, u8)>, OutOfMemory>
    requires { All CanBePut candidates.items }
{
    let mut merger = Merger::new(alloc, OFFSETS)?;
    let items = merge_advance(&mut merger, candidates, positions, ended)?;
    let mut places = Vec::new(alloc);
    note(rt, &mut places, items)?;
    Ok(places)
}

/// Ends the test unless three lanes hear samples in one turn, and one item is given of that.
fn assert_is_heard_once<R: Abort + Threads + Sync>(
    rt: &R,
    alloc: Global,
    bank: &mut BankOnRing,
    samples: &[i16],
) -> Result<(), Fail> {
    bank.publish(rt, samples);
    let Advance {
        positions,
        candidates,
        gaps,
        ended,
    } = bank.turn(rt, &OpenGate)?;
    assert_equal(rt, &(gaps.len(), ended, bank.busy()), &(0, false, true));
    assert_equal(rt, &candidates.len(), &3);
    let places = merged(rt, alloc, candidates, &positions, ended)?;
    assert_equal(rt, &places.as_slice(), &[(1294, 6)].as_slice());
    Ok(())
}

#[test]
fn a_transmission_is_heard_once(rt: HostRuntime) -> Result<(), Fail> {
    let samples = transmission(&rt, rt.alloc())?;
    let mut bank = BankOnRing::new(rt.alloc(), 2048)?;
    assert_is_heard_once(&rt, rt.alloc(), &mut bank, &samples)
}

/// Where a gap from `from` on ends in a ring of 64 cells: 63 before the newest of `to` samples in the cell of `from`.
fn after_gap(from: u64, to: u64) -> u64 {
    let last = to.saturating_sub(1);
    let newest = last.saturating_sub(last.wrapping_sub(from) % 64);
    newest.saturating_sub(63)
}

/// The gaps of one lane that stood at `from` in a ring of 64 cells when `to` samples were published: one to the oldest
/// sample of the first cell, and then one for each sample that was overwritten.
fn are_gaps(gaps: &[LaneGap], lane: u8, from: u64, to: u64) -> bool {
    let oldest = to.saturating_sub(64);
    let mut next = from;
    for gap in gaps {
        if (gap.lane, gap.from) != (lane, next) || gap.to != after_gap(next, to) {
            return false;
        }
        next = gap.to;
    }
    next == oldest
}

/// Ends the test unless each lane of a bank that stood at 10 is told so many gaps, after so many samples in all.
fn assert_gaps<R: Abort>(rt: &R, gaps: &[LaneGap], published: usize, count: usize)
    requires some { 0 < count }
    requires few { count ≤ 64 }
{
    assert_equal(rt, &(published, gaps.len()), &(published, 8 * count));
    for (lane, of_lane) in (0..OFFSETS).zip(gaps.chunks(count)) {
        let are = are_gaps(of_lane, lane, 10, published as u64);
        assert_equal(rt, &(published, lane, are), &(published, lane, true));
    }
}

/// What a bank hears after it has read 10 samples of silence and lags so far that each lane is told so many gaps.
fn heard_after_gaps<R: Abort + Threads + Sync>(
    rt: &R,
    alloc: Global,
    bank: &mut BankOnRing,
    published: usize,
    count: usize,
    samples: &[i16],
) -> Result<Vec<(u64, u8)>, OutOfMemory>
    requires more { 10 ≤ published }
    requires some { 0 < count }
    requires few { count ≤ 64 }
{
    bank.publish_silence(rt, 10);
    let gaps = bank.turn(rt, &OpenGate)?.gaps;
    assert_equal(rt, &(published, gaps.len()), &(published, 0));
    bank.publish_silence(rt, published - 10);
    let gaps = bank.turn(rt, &OpenGate)?.gaps;
    assert_gaps(rt, &gaps, published, count);
    bank.heard(rt, alloc, samples)
}

/// Ends the test unless each lane is told so many gaps after so many samples, and then a transmission is heard so.
fn assert_hears_after_gaps<R: Abort + Threads + Sync>(
    rt: &R,
    alloc: Global,
    published: usize,
    count: usize,
    ends: &[(u64, u8)],
) -> Result<(), Fail>
    requires more { 10 ≤ published }
    requires some { 0 < count }
    requires few { count ≤ 64 }
{
    let samples = transmission(rt, alloc)?;
    let mut bank = BankOnRing::new(alloc, 64)?;
    let places = heard_after_gaps(rt, alloc, &mut bank, published, count, &samples)?;
    assert_equal(rt, &(published, places.as_slice()), &(published, ends));
    Ok(())
}

#[test]
fn a_lapped_bank_is_told_each_gap_and_hears_what_follows(rt: HostRuntime) -> Result<(), Fail> {
    let ends = [(1494, 6), (1495, 7), (1496, 0)];
    assert_hears_after_gaps(&rt, rt.alloc(), 200, 62, &ends)?;
    let ends = [(1497, 1), (1498, 2), (1499, 3)];
    assert_hears_after_gaps(&rt, rt.alloc(), 203, 1, &ends)
}

#[test]
fn a_frame_with_a_gap_in_it_is_not_heard(rt: HostRuntime) -> Result<(), Fail> {
    let samples = transmission(&rt, rt.alloc())?;
    let mut bank = BankOnRing::new(rt.alloc(), 64)?;
    bank.publish(&rt, &samples);
    let advance = bank.turn(&rt, &OpenGate)?;
    assert_hears_nothing(&rt, advance, 1296, 8 * 16, false);
    Ok(())
}

/// The samples of 60 bits 0, and then silence.
fn zeros_and_silence() -> [i16; 840] {
    let mut samples = [0; 840];
    let mut line = NrziOut::new();
    let mut phase = 0;
    for bit in 0..60usize {
        let tone = line.step(false);
        for at in 0..8usize {
            phase %= 48;
            samples[8 * bit + at] = sine(phase);
            phase += step(tone) % 48;
        }
    }
    samples
}

/// A bank that listens for tones is busy with the 104th sample of them, and free 360 samples after the last. One that
/// listens for flags is never busy, since there is none.
#[test]
fn a_bank_is_busy_by_tones(rt: HostRuntime) -> Result<(), Fail> {
    let sent = zeros_and_silence();
    let pieces: [(&[i16], bool); 4] = [
        (&sent[..103], false),
        (&sent[103..104], true),
        (&sent[104..839], true),
        (&sent[839..], false),
    ];
    for (detection, listens) in [(Detection::Tones, true), (Detection::Flags(1), false)] {
        let mut bank = BankOnRing::listening(rt.alloc(), 1024, detection)?;
        for (piece, busy) in pieces {
            let got = bank.busy_after(&rt, piece)?;
            assert_equal(&rt, &(piece.len(), got), &(piece.len(), busy && listens));
        }
    }
    Ok(())
}

/// A gap ends it, also where tones go on, and they are found anew after it.
#[test]
fn a_gap_ends_tones(rt: HostRuntime) -> Result<(), Fail> {
    let sent = zeros_and_silence();
    let pieces: [(&[i16], bool); 4] = [
        (&sent[..64], false),
        (&sent[64..128], true),
        (&sent[128..320], false),
        (&sent[320..384], true),
    ];
    let mut bank = BankOnRing::listening(rt.alloc(), 64, Detection::Tones)?;
    for (piece, busy) in pieces {
        let got = bank.busy_after(&rt, piece)?;
        assert_equal(&rt, &(piece.len(), got), &(piece.len(), busy));
    }
    Ok(())
}
