//! One turn of the eight lanes of a bank that reads a ring.

ghost use Rattle.std.specs.Prelude.{◌≡◌, ℕ, ◌≤◌, ◌<◌, length, map, IfOk, OnOk, slice_index_or};
ghost use Rattle.std.specs.List.{All};
ghost use Rattle.sample_ring.specs.Ends.{ring_id, ring_len, reader_ring, record_of, position_of};
ghost use Rattle.slicer_bank.specs.declared.detection.Detection.{Detection};
ghost use Rattle.slicer_bank.specs.declared.ring_lane.RingLane.{RingLane};
ghost use Rattle.slicer_bank.specs.Merging.{CanBePut};
ghost use Rattle.slicer_bank.specs.RingJobs.{LanesAreReady, LanesStay};
ghost use Rattle.slicer_bank.specs.RingLanes.{answers_by, readers_of, LanesListen};
ghost use Rattle.slicer_bank.specs.RingTurns.{IsTurn, BringsOnRing, AreGrown, AreForward, ArePast};

use crate::advance::Advance;
use crate::gate::Gate;
use crate::ring_lane::RingLane;
use crate::ring_lanes::{advance_each, gather};
use sample_ring::Ring;
use std::alloc::Global;
use std::thread::Threads;
use tnc_base::OutOfMemory;

/// Each lane makes a turn of reading; what all of them bring of it.
pub(crate) fn make_turn<R: Threads + Sync, G: Gate>(
    rt: &R,
    alloc: Global,
    lanes: &mut [RingLane],
    ring: &Ring,
    gate: &G,
) -> Result<Advance, OutOfMemory>
    requires lanes { length lanes.old ≡ 8 }
    requires ready { LanesAreReady (ring_id ring.now) lanes.old }
    ensures lanes { length lanes.new ≡ 8 }
    ensures stay { LanesStay (ring_id ring.now) lanes.new }
    ensures grown { AreGrown (map record_of (readers_of lanes.old)) (map record_of (readers_of lanes.new)) }
    ensures ready { OnOk result (LanesAreReady (ring_id ring.now) lanes.new) }
    ensures turn { IfOk result (λ advance. IsTurn (answers_by (ring_len ring.now) lanes.old) (answers_by
        (ring_len ring.now) lanes.new) advance.gaps.items advance.ended) }
    ensures listen { OnOk result ((detection : Detection) → LanesListen (ring_len ring.now) detection lanes.old
        → LanesListen (ring_len ring.now) detection lanes.new) }
    ensures heard { IfOk result (λ advance. (detection : Detection) → LanesListen (ring_len ring.now) detection lanes.old
        → BringsOnRing (answers_by (ring_len ring.now) lanes.old)
        (answers_by (ring_len ring.now) lanes.new) advance.positions advance.candidates.items) }
    ensures positions { IfOk result (λ advance. advance.positions ≡ map position_of (readers_of lanes.new)) }
    ensures forward { OnOk result (AreForward (map position_of (readers_of lanes.old)) (map position_of
        (readers_of lanes.new))) }
    ensures bounds { IfOk result (λ advance. All CanBePut advance.candidates.items) }
    ensures past { IfOk result (λ advance. ArePast (map position_of (readers_of lanes.old)) advance.candidates.items) }
{
    advance_each(rt, alloc, lanes, ring, gate);
    let advance = gather(alloc, lanes)?;
    Ok(advance)
}
