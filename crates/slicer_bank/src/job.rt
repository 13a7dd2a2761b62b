//! The job of one lane: what it hears in a block, by itself and beside the other lanes.

ghost use Rattle.std.specs.Prelude.{◌≡◌, ℕ, ◌+◌, ◌<◌, ◌≤◌, ◌^◌, ℤ, List, ◌++◌, length, take, drop, IfOk, OnOk, Some};
ghost use Rattle.std.specs.List.{All};
ghost use Rattle.offset_slicers.specs.Windows.{windows_in, tones_at};
ghost use Rattle.frame_merge.specs.declared.candidate.Candidate.{Candidate};
ghost use Rattle.hdlc_framer.specs.Held.{flags_asked};
ghost use Rattle.slicer_bank.specs.Held.{LaneStandsFor, last_seven};
ghost use Rattle.slicer_bank.specs.Heard.{AreOfWindows, HearsAlone, LaneHears};
ghost use Rattle.slicer_bank.specs.Merging.{CanBePutPast};

use crate::lane::{LANES, Lane};
use crate::seven::bridge;
use crate::window_hearing::{hear, hear_eight};
use frame_merge::Candidate;
use std::alloc::Global;
use tnc_base::OutOfMemory;

/// Gives the lane of an offset, which has taken `position` samples with `recent` as the last seven, a block. What it
/// hears in it is left in the lane.
pub(crate) fn hear_alone(
    alloc: Global,
    lane: &mut Lane,
    offset: u8,
    recent: &[i16; 7],
    position: u64,
    block: &[i16],
)
    requires lane { offset < 8 }
    requires room { position + length block.now < 2 ^ 48 }
    ensures heard { HearsAlone offset position recent.now block.now lane.old lane.new }
    ensures bounds { (items : List Candidate) → lane.new.heard ≡ Some items → All (CanBePutPast position) items }
    ensures asks { flags_asked lane.new.deframer ≡ flags_asked lane.old.deframer }
{
    let heard = hear_lane(alloc, lane, offset, recent, position, block);
    lane.heard = heard.ok();
}

/// What the lane of an offset hears in a block. The window that begins before the block is heard first.
fn hear_lane(
    alloc: Global,
    lane: &mut Lane,
    offset: u8,
    recent: &[i16; 7],
    position: u64,
    block: &[i16],
) -> Result<Vec<Candidate>, OutOfMemory>
    requires lane { offset < 8 }
    requires room { position + length block.now < 2 ^ 48 }
    ensures heard { IfOk result (λ heard. (x : List ℤ) → length x ≡ position
        → recent.now ≡ last_seven x → LaneStandsFor lane.old (tones_at offset x)
        → LaneStandsFor lane.new (tones_at offset (x ++ block.now))
        × AreOfWindows offset (windows_in offset position) (windows_in offset (length (x ++ block.now))) (x
        ++ block.now) heard.items) }
    ensures bounds { IfOk result (λ heard. All (CanBePutPast position) heard.items) }
    ensures asks { flags_asked lane.new.deframer ≡ flags_asked lane.old.deframer }
{
    let mut heard = Vec::new(alloc);
    let (first, _) = block.split_at(block.len().min(7));
    let bridge = bridge(recent, first);
    hear_own(
        alloc,
        lane,
        offset,
        position,
        &bridge[..7 + first.len()],
        &mut heard,
    )?;
    if block.len() <= 7 {
        return Ok(heard);
    }
    hear_own(alloc, lane, offset, position + 7, block, &mut heard)?;
    Ok(heard)
}

/// Gives the lane of an offset, which has taken `position` samples, its own windows of a piece that begins with the
/// last seven of these, and adds what it hears to `found`.
fn hear_own(
    alloc: Global,
    lane: &mut Lane,
    offset: u8,
    position: u64,
    piece: &[i16],
    found: &mut Vec<Candidate>,
) -> Result<(), OutOfMemory>
    requires lane { offset < 8 }
    requires seven { 7 ≤ length piece.now }
    requires room { position + length piece.now < 2 ^ 49 }
    ensures found { OnOk result (LaneHears offset position (take 7 piece.now)
        (drop 7 piece.now) lane.old lane.new found.old.items found.new.items) }
    ensures bounds { (before : ℕ) → before ≤ position
        → OnOk result (All (CanBePutPast before) found.old.items → All (CanBePutPast before) found.new.items) }
    ensures asks { flags_asked lane.new.deframer ≡ flags_asked lane.old.deframer }
{
    let taken = position.saturating_sub(u64::from(offset)) / LANES;
    let mut end = u64::from(offset) + LANES * (taken + 1);
    let before = piece.len().min((end - 1 - position) as usize);
    let mut rest = &piece[before..];
    while let Some((window, after)) = rest.split_first_chunk::<8>() {
        if let Some((windows, later)) = rest.split_first_chunk::<64>() {
            hear_eight(alloc, lane, offset, end, windows, found)?;
            end += 8 * LANES;
            rest = later;
        } else {
            hear(alloc, lane, offset, end, window, found)?;
            end += LANES;
            rest = after;
        }
    }
    Ok(())
}
