//! What the lanes that follow a clock on a list of tones hear when a place is decided.

ghost use Rattle.std.specs.Prelude.{◌≡◌, true, ◌+◌, ◌<◌, ◌≤◌, ◌^◌, ℕ, ℤ, List, length, OnOk};
ghost use Rattle.std.specs.List.{All};
ghost use Rattle.hdlc_framer.specs.Frames.{IsFrame};
ghost use Rattle.hdlc_framer.specs.Held.{HoldsFrame};
ghost use Rattle.tone_table.specs.declared.tone.Tone.{Tone};
ghost use Rattle.tone_tracking.specs.Clock.{changes};
ghost use Rattle.sensitive_receiver.specs.AddedCandidates.{is_in_time};
ghost use Rattle.sensitive_receiver.specs.Found.{AddsAt, HasRoomFrom};
ghost use Rattle.sensitive_receiver.specs.HeldLanes.{HoldsFrameOf};
ghost use Rattle.sensitive_receiver.specs.HeldList.{HasDecided, LastIsRead};
ghost use Rattle.sensitive_receiver.specs.Hearing.{LanesHear};
ghost use Rattle.sensitive_receiver.specs.Lanes.{delay_of, lane_bits, lane_tones, list_of};
ghost use Rattle.sensitive_receiver.specs.LateLanes.{LaneStandsFor};
ghost use Rattle.sensitive_receiver.specs.ListLanes.{first_slow};

use crate::added_lane::has_path;
use crate::decided_place::DecidedPlace;
use crate::lanes::delay_of;
use crate::late_lane::LateLane;
use frame_merge::Candidate;
use std::alloc::Global;
use tnc_base::{Octets, OutOfMemory};
use tone_table::Tone;
use tone_tracking::ToneRing;

/// Has the three lanes on the slow clock of a list, from the first on, read their bits if it says so, and adds what they hear
/// to `found`. Each reads a place before the one before it.
#[inline(always)]
pub(crate) fn hear_slow(
    alloc: Global,
    ring: &ToneRing,
    lanes: &mut [LateLane],
    first: u8,
    at: &DecidedPlace,
    found: &mut Vec<Candidate>,
) -> Result<(), OutOfMemory>
    requires first { first ≡ first_slow ring.now.reach }
    requires few { (16 ≤ first) × (first ≤ 23) }
    requires lanes { length lanes.old ≡ 3 }
    requires room { ring.now.place < 2 ^ 49 }
    requires place { at.now.place < 2 ^ 48 }
    ensures lanes { length lanes.new ≡ 3 }
    ensures hear { OnOk result (LanesHear 0 3 ring.now at.now lanes.old lanes.new found.old.items found.new.items) }
    ensures bounds { (low : ℕ) → low ≤ at.now.place + 6
        → OnOk result (All (HasRoomFrom low) found.old.items → All (HasRoomFrom low) found.new.items) }
{
    if !at.reads {
        return Ok(());
    }
    for index in 0..3 {
        let lane = &mut lanes[usize::from(index)];
        hear(alloc, ring, lane, first + index, index, at.place, found)?;
    }
    Ok(())
}

/// Has a lane read its bit at the place that was decided last, and adds the frame that ends with it. Its delay is handed
/// in, since most callers know it when the program is built.
#[inline(always)]
pub(crate) fn hear(
    alloc: Global,
    ring: &ToneRing,
    lane: &mut LateLane,
    number: u8,
    delay: u8,
    place: u64,
    found: &mut Vec<Candidate>,
) -> Result<(), OutOfMemory>
    requires number { (16 ≤ number) × (number < 26) }
    requires list { list_of number ≡ ring.now.reach }
    requires delay { delay ≡ delay_of number }
    requires few { delay ≤ 2 }
    requires room { ring.now.place < 2 ^ 49 }
    requires place { place < 2 ^ 48 }
    ensures read { (x : List ℤ) → LastIsRead ring.now number place x
        → LaneStandsFor lane.old (lane_tones x number place)
        → LaneStandsFor lane.new (lane_tones x number (place + 1)) }
    ensures found { OnOk result ((x : List ℤ) → LastIsRead ring.now number place x
        → LaneStandsFor lane.old (lane_tones x number place)
        → AddsAt place number x found.old.items found.new.items) }
    ensures bounds { (low : ℕ) → low ≤ place + 6
        → OnOk result (All (HasRoomFrom low) found.old.items → All (HasRoomFrom low) found.new.items) }
{
    let tone = ring.tone_before(delay);
    if !lane.push(tone) {
        return Ok(());
    }
    add_frame(alloc, ring, lane, number, place, found)
}

/// Adds the frame that ends with the bit that a lane read last, if it begins with a path and its flag is in time. Few
/// bits end a frame, so this stays apart from what each bit costs.
#[cold]
#[inline(never)]
fn add_frame(
    alloc: Global,
    ring: &ToneRing,
    lane: &LateLane,
    number: u8,
    place: u64,
    found: &mut Vec<Candidate>,
) -> Result<(), OutOfMemory>
    requires number { (16 ≤ number) × (number < 26) }
    requires list { list_of number ≡ ring.now.reach }
    requires holds { (octets : List ℕ) × IsFrame octets × HoldsFrame lane.now.deframer octets }
    requires room { ring.now.place < 2 ^ 49 }
    requires place { place < 2 ^ 48 }
    ensures found { OnOk result ((x : List ℤ) → LastIsRead ring.now number place x
        → HoldsFrameOf lane.now (lane_bits x number (place + 1))
        → AddsAt place number x found.old.items found.new.items) }
    ensures bounds { (low : ℕ) → low ≤ place + 6
        → OnOk result (All (HasRoomFrom low) found.old.items → All (HasRoomFrom low) found.new.items) }
{
    if !ends_in_time(ring, number) {
        return Ok(());
    }
    if !has_path(lane.octets()) {
        return Ok(());
    }
    let octets = Octets::from_slice(alloc, lane.octets())?;
    found.push(Candidate {
        end: place + 8 - u64::from(delay_of(number)),
        offset: number,
        octets,
    })?;
    Ok(())
}

/// Whether the bit that a lane reads is the last 0 of a flag, also by the plain count of samples: the tones two bits
/// and one bit before agree, and the tone of the bit is another.
fn ends_in_time(ring: &ToneRing, number: u8) -> bool
    requires number { number < 26 }
    requires list { list_of number ≡ ring.now.reach }
    requires room { ring.now.place < 2 ^ 49 }
    ensures { (x : List ℤ) (place : ℕ) → HasDecided ring.now x → ring.now.place ≡ place + 1
        → result ≡ is_in_time x number place }
{
    let delay = delay_of(number);
    let tone = ring.tone_before(delay);
    let one_before = ring.tone_before(delay + 8);
    let two_before = ring.tone_before(delay + 16);
    has_changed(one_before, tone) && !has_changed(two_before, one_before)
}

/// Whether two tones differ.
fn has_changed(before: Tone, tone: Tone) -> bool
    ensures { result ≡ changes before tone }
{
    match (before, tone) {
        (Tone::Mark, Tone::Mark) | (Tone::Space, Tone::Space) => false,
        (Tone::Mark, Tone::Space) | (Tone::Space, Tone::Mark) => true,
    }
}
