//! The eight lanes of a bank that reads a ring.

ghost use Rattle.std.specs.Prelude.{◌≡◌, ℕ, ◌≤◌, ◌<◌, ◌↔◌, List, [], length, false, IfOk, OnOk, OnErr, IsTrue};
ghost use Rattle.std.specs.Prelude.{slice_index_or, vec_capacity};
ghost use Rattle.std.specs.List.{All};
ghost use Rattle.sample_ring.specs.Ends.{IsNew, ring_id, ring_len};
ghost use Rattle.slicer_bank.specs.declared.ring_lane.RingLane.{RingLane};
ghost use Rattle.slicer_bank.specs.Detection.{CanBeAsked};
ghost use Rattle.slicer_bank.specs.HeardOnRing.{IsBusyOnRing};
ghost use Rattle.slicer_bank.specs.RingJobs.{IsReady, IsTaken, Advanced, IsAlike, IsGathered};
ghost use Rattle.slicer_bank.specs.RingLanes.{answers_by, readers_of, LanesListen};

use crate::advance::Advance;
use crate::detection::Detection;
use crate::gate::Gate;
use crate::ring_lane::RingLane;
use sample_ring::{Reader, Ring};
use std::alloc::Global;
use std::thread;
use std::thread::Threads;
use tnc_base::OutOfMemory;

/// One thread is started beside the caller's, so that four lanes run on each. More threads cost more than they give.
const JOBS: usize = 2;

/// Eight lanes that have read nothing. Lane i takes reader i; the Vec of the readers is left empty, with its room.
pub(crate) fn new_ring_lanes(
    alloc: Global,
    readers: &mut Vec<Reader>,
    detection: Detection,
) -> Result<Vec<RingLane>, OutOfMemory>
    requires eight { length readers.old.items ≡ 8 }
    requires fresh { All IsNew readers.old.items }
    requires detection { CanBeAsked detection }
    ensures empty { OnOk result (readers.new.items ≡ []) }
    ensures room { vec_capacity readers.new ≡ vec_capacity readers.old }
    ensures count { IfOk result (λ lanes. length lanes.items ≡ 8) }
    ensures readers { IfOk result (λ lanes. readers_of lanes.items ≡ readers.old.items) }
    ensures listen { IfOk result (λ lanes. (len : ℕ) → LanesListen len detection lanes.items) }
    ensures taken { IfOk result (λ lanes. All IsTaken lanes.items) }
{
    let mut lanes = Vec::with_capacity(alloc, 8)?;
    for offset in 0..8u8 {
        lanes.push(RingLane::new(alloc, readers.remove(0), offset, detection))?;
    }
    Ok(lanes)
}

/// Each lane makes a turn of reading, four on a thread of their own. The gate is told as each starts.
pub(crate) fn advance_each<R: Threads + Sync, G: Gate>(
    rt: &R,
    alloc: Global,
    lanes: &mut [RingLane],
    ring: &Ring,
    gate: &G,
)
    requires lanes { length lanes.old ≡ 8 }
    requires ready { All (λ lane. IsReady (ring_id ring.now) lane.lane.offset lane) lanes.old }
    ensures lanes { length lanes.new ≡ 8 }
    ensures advanced { (k : ℕ) (d : RingLane) → k < 8
        → Advanced (ring_len ring.now) (slice_index_or lanes.old k d) (slice_index_or lanes.new k d) }
{
    thread::for_each_mut(
        rt,
        lanes,
        JOBS,
        &|_, lane: &mut RingLane|
            requires { IsReady (ring_id ring.now) lane.old.lane.offset lane.old }
            ensures { Advanced (ring_len ring.entry.now) lane.old lane.new }
        {
            gate.begun(lane.lane.offset);
            lane.advance(alloc, ring);
        },
    );
}

/// What the lanes found in a turn, in order: each of them hears at ends of its own, so the ends alone say the order. If
/// one of them wanted memory, so does this.
pub(crate) fn gather(alloc: Global, lanes: &mut [RingLane]) -> Result<Advance, OutOfMemory>
    requires lanes { length lanes.old ≡ 8 }
    ensures lanes { length lanes.new ≡ 8 }
    ensures alike { (k : ℕ) (d : RingLane) → k < 8
        → IsAlike (slice_index_or lanes.old k d) (slice_index_or lanes.new k d) }
    ensures taken { OnOk result (All IsTaken lanes.new) }
    ensures gathered { IfOk result
        (λ advance. IsGathered lanes.old advance.positions advance.candidates.items advance.gaps.items advance.ended) }
{
    let mut candidates = Vec::new(alloc);
    let mut gaps = Vec::new(alloc);
    let mut positions = [0; 8];
    let mut ended = true;
    for index in 0..8 {
        let lane = &mut lanes[index];
        lane.hand_over(&mut candidates, &mut gaps)?;
        positions[index] = lane.reader.at();
        ended = ended && lane.ended;
    }
    candidates.sort_unstable_by_key(|item| item.end);
    Ok(Advance {
        positions,
        candidates,
        gaps,
        ended,
    })
}

/// Whether some lane hears a station, by what they were asked to listen for.
pub(crate) fn is_some_busy(lanes: &[RingLane], detection: Detection) -> bool
    requires { length lanes.now ≡ 8 }
    ensures { (len : ℕ) → LanesListen len detection lanes.now
        → (IsTrue result ↔ IsBusyOnRing detection (answers_by len lanes.now)) }
{
    for lane in lanes {
        if lane.lane.hears(detection) {
            return true;
        }
    }
    false
}
