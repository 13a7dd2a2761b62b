//! What ends with a bit of a lane: a frame that came plainly, and for each tag a frame in a block.
ghost use Rattle.std.specs.Prelude.{◌≡◌, ◌+◌, ◌*◌, ◌-◌, ◌<◌, ◌≤◌, ◌^◌, ℕ, ℤ, List, [], ◌∷◌, ◌++◌, length, true, OnOk, IfSome, slice_index_or};
ghost use Rattle.std.specs.Option.{IfNone};
ghost use Rattle.tone_table.specs.declared.tone.Tone.{Tone};
ghost use Rattle.hdlc_framer.specs.Frames.{IsFrame, EndsFrame};
ghost use Rattle.hdlc_framer.specs.Held.{HoldsFrame};
ghost use Rattle.fx25_blocks.specs.Tags.{IsTag};
ghost use Rattle.fx25_blocks.specs.UnsureBlocks.{EndsUnsureBlock};
ghost use Rattle.fx25_receiver.specs.declared.heard.Heard.{Heard};
ghost use Rattle.tone_tracking.specs.Clock.{changes};
ghost use Rattle.sensitive_receiver.specs.AddedCandidates.{HasPath, is_in_time};
ghost use Rattle.sensitive_blocks.specs.Bits.{ends, lane_bits, lane_certainties, lane_tones, place_for, reads, tone_for};
ghost use Rattle.sensitive_blocks.specs.Heard.{IsTold};
ghost use Rattle.sensitive_blocks.specs.Held.{LanesHaveRead};
ghost use Rattle.sensitive_blocks.specs.HeldLane.{LaneHasRead};
ghost use Rattle.sensitive_blocks.specs.Moments.{IsAt};
ghost use Rattle.sensitive_blocks.specs.Ranks.{TakesRanks};
ghost use Rattle.sensitive_blocks.specs.Taken.{HasTakenBelow};

use crate::follower::Follower;
use crate::lane::TimedLane;
use crate::readings::{FIRST, LANES, Readings, list_of, reads};
use ax25_address::read_path;
use fx25_blocks::{BlockFrame, TAGS, block_length};
use fx25_receiver::{Heard, put};
use offset_slicers::decide;
use std::alloc::Global;
use tnc_base::{Octets, OutOfMemory};
use tone_table::Tone;

/// A bit: its lane, and its end.
#[derive(Clone, Copy)]
pub(crate) struct Bit {
    pub(crate) lane: u8,
    pub(crate) end: u64,
}

/// What the bits with an end are read from.
#[derive(Clone, Copy)]
pub(crate) struct Moment {
    /// What is known of the places that the lanes with a delay of 0, 1 and 2 read.
    pub(crate) readings: [Readings; 3],
    /// The eight samples of the window.
    pub(crate) window: [i16; 8],
    /// How many places the tones lie before the last one that is decided.
    pub(crate) back: u8,
}

/// Has each lane read its bit with an end, if it reads one there, and takes what ends with these bits.
pub(crate) fn hear_lanes(
    alloc: Global,
    moment: &Moment,
    follower: &Follower,
    lanes: &mut [TimedLane],
    end: u64,
    kept: &mut Vec<Heard>,
    given: &mut Vec<Heard>,
) -> Result<(), OutOfMemory>
    requires lanes { length lanes.old ≡ 26 }
    requires back { moment.now.back ≤ 2 }
    requires room { follower.now.position < 2 ^ 49 }
    ensures lanes { length lanes.new ≡ 26 }
    ensures heard { OnOk result ((x : List ℤ) (before : List Heard) → IsAt moment.now follower.now end x
        → LanesHaveRead lanes.old end x
        → HasTakenBelow end 0 kept.old.items x (before ++ given.old.items)
        → LanesHaveRead lanes.new (end + 1) x
        × HasTakenBelow (end + 1) 0 kept.new.items x (before ++ given.new.items)) }
{
    for lane in 0..LANES {
        let bit = Bit { lane, end };
        let taken = &mut lanes[usize::from(lane)];
        hear(alloc, moment, follower, taken, bit, kept, given)?;
    }
    Ok(())
}

/// Has a lane read its bit with an end, if it reads one there, and takes what ends with the bit.
fn hear(
    alloc: Global,
    moment: &Moment,
    follower: &Follower,
    lane: &mut TimedLane,
    bit: Bit,
    kept: &mut Vec<Heard>,
    given: &mut Vec<Heard>,
) -> Result<(), OutOfMemory>
    requires lane { bit.lane < 26 }
    requires back { moment.now.back ≤ 2 }
    requires room { follower.now.position < 2 ^ 49 }
    ensures read { (x : List ℤ) → IsAt moment.now follower.now bit.end x
        → LaneHasRead lane.old (lane_tones x bit.lane bit.end) (lane_certainties x bit.lane bit.end)
        (ends x bit.lane bit.end)
        → LaneHasRead lane.new (lane_tones x bit.lane (bit.end + 1)) (lane_certainties x bit.lane (bit.end + 1))
        (ends x bit.lane (bit.end + 1)) }
    ensures heard { OnOk result ((x : List ℤ) (before : List Heard) → IsAt moment.now follower.now bit.end x
        → LaneHasRead lane.old (lane_tones x bit.lane bit.end) (lane_certainties x bit.lane bit.end)
        (ends x bit.lane bit.end)
        → HasTakenBelow bit.end (256 * bit.lane) kept.old.items x (before ++ given.old.items)
        → HasTakenBelow bit.end (256 * (bit.lane + 1)) kept.new.items x (before ++ given.new.items)) }
{
    if !reads(&moment.readings, bit.lane, bit.end) {
        return Ok(());
    }
    let plain = lane.push(tone(moment, follower, bit.lane), bit.end, &moment.window);
    hear_frame(alloc, moment, follower, lane, plain, bit, kept, given)?;
    hear_blocks(alloc, lane, bit, kept, given)
}

/// The tone that a lane reads.
fn tone(moment: &Moment, follower: &Follower, lane: u8) -> Tone
    requires lane { lane < 26 }
    requires back { moment.now.back ≤ 2 }
    requires room { follower.now.position < 2 ^ 49 }
    ensures { (x : List ℤ) (end : ℕ) → IsAt moment.now follower.now end x → reads x lane end ≡ true
        → result ≡ tone_for x lane end }
{
    if lane < FIRST {
        decide(&moment.window)
    } else {
        follower.tone_before(list_of(lane), moment.back)
    }
}

/// Takes the frame that ended plainly with a bit, if `plain` says that one did and it is told.
fn hear_frame(
    alloc: Global,
    moment: &Moment,
    follower: &Follower,
    lane: &TimedLane,
    plain: bool,
    bit: Bit,
    kept: &mut Vec<Heard>,
    given: &mut Vec<Heard>,
) -> Result<(), OutOfMemory>
    requires lane { bit.lane < 26 }
    requires back { moment.now.back ≤ 2 }
    requires room { follower.now.position < 2 ^ 49 }
    requires holds { plain ≡ true → (octets : List ℕ) × IsFrame octets × HoldsFrame lane.now.lane.deframer octets }
    ensures { OnOk result ((x : List ℤ) (before : List Heard) → IsAt moment.now follower.now bit.end x
        → reads x bit.lane bit.end ≡ true
        → (plain ≡ true → (octets : List ℕ) × EndsFrame (lane_bits x bit.lane (bit.end + 1)) octets)
        → ((octets : List ℕ) → EndsFrame (lane_bits x bit.lane (bit.end + 1)) octets
        → (plain ≡ true) × HoldsFrame lane.now.lane.deframer octets)
        → HasTakenBelow bit.end (256 * bit.lane) kept.old.items x (before ++ given.old.items)
        → HasTakenBelow bit.end (256 * bit.lane + 1) kept.new.items x (before ++ given.new.items)) }
{
    if plain {
        hear_plainly(alloc, moment, follower, lane.octets(), bit, kept, given)
    } else {
        Ok(())
    }
}

/// Takes the frame that ended plainly with a bit, if it is told.
fn hear_plainly(
    alloc: Global,
    moment: &Moment,
    follower: &Follower,
    octets: &[u8],
    bit: Bit,
    kept: &mut Vec<Heard>,
    given: &mut Vec<Heard>,
) -> Result<(), OutOfMemory>
    requires lane { bit.lane < 26 }
    requires back { moment.now.back ≤ 2 }
    requires room { follower.now.position < 2 ^ 49 }
    ensures { OnOk result ((x : List ℤ) (before : List Heard) → IsAt moment.now follower.now bit.end x
        → reads x bit.lane bit.end ≡ true
        → EndsFrame (lane_bits x bit.lane (bit.end + 1)) octets.now
        → HasTakenBelow bit.end (256 * bit.lane) kept.old.items x (before ++ given.old.items)
        → HasTakenBelow bit.end (256 * bit.lane + 1) kept.new.items x (before ++ given.new.items)) }
{
    if !is_told(moment, follower, bit.lane, octets) {
        return Ok(());
    }
    let octets = Octets::from_slice(alloc, octets)?;
    let item = Heard {
        end: bit.end,
        lane: bit.lane,
        tag: 0,
        octets,
        at: bit.end,
    };
    put(alloc, item, kept, given)?;
    Ok(())
}

/// Whether a plain frame that a lane hears is told.
fn is_told(moment: &Moment, follower: &Follower, lane: u8, octets: &[u8]) -> bool
    requires lane { lane < 26 }
    requires back { moment.now.back ≤ 2 }
    requires room { follower.now.position < 2 ^ 49 }
    ensures told { (x : List ℤ) (end : ℕ) → IsAt moment.now follower.now end x → reads x lane end ≡ true
        → result ≡ true → IsTold x lane end octets.now }
    ensures lacks { (x : List ℤ) (end : ℕ) → IsAt moment.now follower.now end x → reads x lane end ≡ true
        → IsTold x lane end octets.now → result ≡ true }
{
    if lane < FIRST {
        return true;
    }
    is_in_time(moment, follower, lane) && has_path(octets)
}

/// Whether the bit of an added lane is the last 0 of a flag, also by the plain count of samples: the tones two bits and one
/// bit before agree, and the tone of the bit is another.
fn is_in_time(moment: &Moment, follower: &Follower, lane: u8) -> bool
    requires lane { (8 ≤ lane) × (lane < 26) }
    requires back { moment.now.back ≤ 2 }
    requires room { follower.now.position < 2 ^ 49 }
    ensures { (x : List ℤ) (end : ℕ) → IsAt moment.now follower.now end x → reads x lane end ≡ true
        → result ≡ is_in_time x lane (place_for lane end) }
{
    let list = list_of(lane);
    let tone = follower.tone_before(list, moment.back);
    let one_before = follower.tone_before(list, moment.back + 8);
    let two_before = follower.tone_before(list, moment.back + 16);
    has_changed(one_before, tone) && !has_changed(two_before, one_before)
}

/// Whether two tones differ.
fn has_changed(before: Tone, tone: Tone) -> bool
    ensures { result ≡ changes before tone }
{
    match (before, tone) {
        (Tone::Mark, Tone::Mark) | (Tone::Space, Tone::Space) => false,
        (Tone::Mark, Tone::Space) | (Tone::Space, Tone::Mark) => true,
    }
}

/// Whether octets begin with a path.
fn has_path(octets: &[u8]) -> bool
    ensures has { result ≡ true → HasPath octets.now }
    ensures lacks { HasPath octets.now → result ≡ true }
{
    read_path(octets).is_ok()
}

/// Takes the frames in blocks that end with a bit. Nearly always there is none, and then nothing is done: what has room for
/// a frame stands in a function of its own, since that room costs time even if it is not used.
fn hear_blocks(
    alloc: Global,
    lane: &TimedLane,
    bit: Bit,
    kept: &mut Vec<Heard>,
    given: &mut Vec<Heard>,
) -> Result<(), OutOfMemory>
    requires lane { bit.lane < 26 }
    ensures { OnOk result (TakesRanks lane.now bit (256 * bit.lane + 1) (256 * (bit.lane + 1))
        kept.old.items given.old.items kept.new.items given.new.items) }
{
    if lane.is_idle() {
        Ok(())
    } else {
        hear_tags(alloc, lane, bit, kept, given)
    }
}

/// Takes the frame in the block of each tag, if one ends with a bit.
fn hear_tags(
    alloc: Global,
    lane: &TimedLane,
    bit: Bit,
    kept: &mut Vec<Heard>,
    given: &mut Vec<Heard>,
) -> Result<(), OutOfMemory>
    requires lane { bit.lane < 26 }
    ensures { OnOk result (TakesRanks lane.now bit (256 * bit.lane + 1) (256 * (bit.lane + 1))
        kept.old.items given.old.items kept.new.items given.new.items) }
{
    for below in 0..TAGS {
        let tag = below + 1;
        hear_block(alloc, lane, lane.block(tag), tag, bit, kept, given)?;
    }
    Ok(())
}

/// Takes the frame of a tag's block, if one ended with a bit.
fn hear_block(
    alloc: Global,
    lane: &TimedLane,
    found: Option<BlockFrame>,
    tag: u8,
    bit: Bit,
    kept: &mut Vec<Heard>,
    given: &mut Vec<Heard>,
) -> Result<(), OutOfMemory>
    requires lane { bit.lane < 26 }
    requires tag { IsTag tag }
    ensures { OnOk result ((x : List ℤ) (before : List Heard) → reads x bit.lane bit.end ≡ true
        → LaneHasRead lane.now (lane_tones x bit.lane (bit.end + 1)) (lane_certainties x bit.lane (bit.end + 1))
        (ends x bit.lane (bit.end + 1))
        → IfSome found (λ found. EndsUnsureBlock (lane_bits x bit.lane (bit.end + 1))
        (lane_certainties x bit.lane (bit.end + 1)) tag found.octets.items found.over)
        → IfNone found ((frame : List ℕ) → (over : ℕ) → ¬ EndsUnsureBlock (lane_bits x bit.lane (bit.end + 1))
        (lane_certainties x bit.lane (bit.end + 1)) tag frame over)
        → HasTakenBelow bit.end (256 * bit.lane + tag) kept.old.items x (before ++ given.old.items)
        → HasTakenBelow bit.end (256 * bit.lane + (tag + 1)) kept.new.items x (before ++ given.new.items)) }
{
    match found {
        None => Ok(()),
        Some(found) => {
            let octets = Octets::from_slice(alloc, found.octets.as_slice())?;
            let back = (8 * block_length(tag)).saturating_sub(found.over);
            let item = Heard {
                end: bit.end,
                lane: bit.lane,
                tag,
                octets,
                at: lane.end_before(back),
            };
            put(alloc, item, kept, given)?;
            Ok(())
        }
    }
}
