//! What the lanes at fixed offsets hear in a line of tones.

ghost use Rattle.std.specs.Prelude.{◌≡◌, ◌+◌, ◌-◌, ◌*◌, ◌%◌, ◌<◌, ◌≤◌, ◌^◌, ℕ, ℤ, List, length, slice_index_or, true, false, OnOk, IfOk};
ghost use Rattle.std.specs.List.{All};
ghost use Rattle.tone_table.specs.declared.tone.Tone.{Tone};
ghost use Rattle.tone_tracking.specs.declared.place_tones.PlaceTones.{PlaceTones};
ghost use Rattle.tone_tracking.specs.declared.reach.Reach.TheVariants.{Far};
ghost use Rattle.tone_tracking.specs.Slots.{tone_of};
ghost use Rattle.hdlc_framer.specs.Frames.{IsFrame};
ghost use Rattle.hdlc_framer.specs.Held.{HoldsFrame};
ghost use Rattle.slicer_bank.specs.ToneLanes.{ToneLaneStandsFor};
ghost use Rattle.sensitive_receiver.specs.FixedLanes.{LaneReads, LanesRead, Reports, TakesEight};
ghost use Rattle.sensitive_receiver.specs.Found.{HasRoomFrom};

use crate::added_lane::has_path;
use crate::lanes::FIRST;
use frame_merge::Candidate;
use slicer_bank::ToneLane;
use std::alloc::Global;
use tnc_base::{Octets, OutOfMemory};
use tone_table::Tone;
use tone_tracking::{PlaceTones, Reach};

/// Has each of the lanes read a line that begins at a place, and adds what they hear to `found`.
pub(crate) fn hear_lanes(
    alloc: Global,
    place: u64,
    lanes: &mut [ToneLane],
    line: &[PlaceTones],
    found: &mut Vec<Candidate>,
) -> Result<(), OutOfMemory>
    requires lanes { length lanes.old ≡ 8 }
    requires room { place + length line.now < 2 ^ 48 }
    ensures lanes { length lanes.new ≡ 8 }
    ensures read { OnOk result (LanesRead 8 place line.now lanes.old lanes.new found.old.items found.new.items) }
    ensures bounds { (low : ℕ) → low ≤ place + 6
        → OnOk result (All (HasRoomFrom low) found.old.items → All (HasRoomFrom low) found.new.items) }
{
    for index in 0..8 {
        let lane = &mut lanes[usize::from(index)];
        hear_line(alloc, FIRST + index, place, lane, line, found)?;
    }
    Ok(())
}

/// Has a lane read its places of a line.
fn hear_line(
    alloc: Global,
    number: u8,
    place: u64,
    lane: &mut ToneLane,
    line: &[PlaceTones],
    found: &mut Vec<Candidate>,
) -> Result<(), OutOfMemory>
    requires number { (8 ≤ number) × (number < 16) }
    requires room { place + length line.now < 2 ^ 48 }
    ensures read { OnOk result (LaneReads number place line.now place (place + length line.now)
        lane.old lane.new found.old.items found.new.items) }
    ensures bounds { (low : ℕ) → low ≤ place + 6
        → OnOk result (All (HasRoomFrom low) found.old.items → All (HasRoomFrom low) found.new.items) }
{
    let mut at = first_turn(number, place);
    while at < line.len() {
        at = read_on(alloc, number, place, lane, line, at, found)?;
    }
    Ok(())
}

/// How far a lane's next place is from one.
fn first_turn(number: u8, place: u64) -> usize
    requires number { (8 ≤ number) × (number < 16) }
    ensures near { result < 8 }
    ensures turn { (place + result) % 8 ≡ number - 8 }
{
    ((u64::from(number) - place % 8) % 8) as usize
}

/// Has a lane read its next place, or eight at once if there are so many and nothing ends there. Tells which is the next.
#[inline(always)]
fn read_on(
    alloc: Global,
    number: u8,
    place: u64,
    lane: &mut ToneLane,
    line: &[PlaceTones],
    at: usize,
    found: &mut Vec<Candidate>,
) -> Result<usize, OutOfMemory>
    requires number { (8 ≤ number) × (number < 16) }
    requires room { place + length line.now < 2 ^ 48 }
    requires inside { at < length line.now }
    requires turn { (place + at) % 8 ≡ number - 8 }
    ensures next { IfOk result (λ next. (at + 8 ≤ next) × (next < length line.now + 8) × ((place + next) % 8 ≡ number - 8)) }
    ensures read { IfOk result (λ next. LaneReads number place line.now (place + at) (place + next)
        lane.old lane.new found.old.items found.new.items) }
    ensures bounds { (low : ℕ) → low ≤ place + 6
        → OnOk result (All (HasRoomFrom low) found.old.items → All (HasRoomFrom low) found.new.items) }
{
    if take_eight(lane, line, at) {
        return Ok(at + 64);
    }
    read_one(alloc, number, place, lane, line, at, found)?;
    Ok(at + 8)
}

/// Has a lane take the tones of eight places at once, if the line has so many and nothing ends there.
#[inline(always)]
fn take_eight(lane: &mut ToneLane, line: &[PlaceTones], at: usize) -> bool
    requires { at < length line.now }
    ensures taken { result ≡ true → TakesEight line.now at lane.old lane.new }
    ensures left { result ≡ false → (tones : List Tone) → ToneLaneStandsFor lane.old tones
        → ToneLaneStandsFor lane.new tones }
{
    if line.len() - at <= 56 {
        return false;
    }
    lane.push_eight(&eight_at(line, at))
}

/// The tones of the far list at eight places of a lane.
#[inline(always)]
fn eight_at(line: &[PlaceTones], at: usize) -> [Tone; 8]
    requires { at + 56 < length line.now }
    ensures size { length result ≡ 8 }
    ensures are { (k : ℕ) (d : Tone) (e : PlaceTones) → k < 8
        → slice_index_or result k d ≡ tone_of Far (slice_index_or line.now (at + 8 * k) e) }
{
    let mut tones = [Tone::Mark; 8];
    for k in 0..8 {
        tones[k] = line[at + 8 * k].of(Reach::Far);
    }
    tones
}

/// Has a lane read one place, and adds the frame that ends there.
fn read_one(
    alloc: Global,
    number: u8,
    place: u64,
    lane: &mut ToneLane,
    line: &[PlaceTones],
    at: usize,
    found: &mut Vec<Candidate>,
) -> Result<(), OutOfMemory>
    requires number { (8 ≤ number) × (number < 16) }
    requires room { place + length line.now < 2 ^ 48 }
    requires inside { at < length line.now }
    requires turn { (place + at) % 8 ≡ number - 8 }
    ensures read { OnOk result (LaneReads number place line.now (place + at) (place + at + 8)
        lane.old lane.new found.old.items found.new.items) }
    ensures bounds { (low : ℕ) → low ≤ place + 6
        → OnOk result (All (HasRoomFrom low) found.old.items → All (HasRoomFrom low) found.new.items) }
{
    if !lane.push(line[at].of(Reach::Far)) {
        return Ok(());
    }
    report(alloc, number, place + at as u64 + 8, lane.octets(), found)
}

/// Adds a frame of a lane that ends at a sample, if it begins with a path. No tone before it is asked for: the flag that
/// ended it is in time, since the lane's tones are eight places apart.
#[cold]
#[inline(never)]
fn report(
    alloc: Global,
    number: u8,
    end: u64,
    frame: &[u8],
    found: &mut Vec<Candidate>,
) -> Result<(), OutOfMemory>
    requires number { (8 ≤ number) × (number < 16) }
    requires room { end < 2 ^ 49 }
    ensures reports { OnOk result (Reports number end frame.now found.old.items found.new.items) }
    ensures bounds { (low : ℕ) → low ≤ end
        → OnOk result (All (HasRoomFrom low) found.old.items → All (HasRoomFrom low) found.new.items) }
{
    if !has_path(frame) {
        return Ok(());
    }
    let octets = Octets::from_slice(alloc, frame)?;
    found.push(Candidate {
        end,
        offset: number,
        octets,
    })?;
    Ok(())
}
