//! What ends with a bit of a lane: a frame that came plainly, and for each tag a frame in a block.
ghost use Rattle.std.specs.Prelude.{◌≡◌, ◌≤◌, ◌+◌, ◌*◌, ℕ, ℤ, List, ◌++◌, true, OnOk, IfSome};
ghost use Rattle.std.specs.Option.{IfNone};
ghost use Rattle.offset_slicers.specs.Windows.{bits};
ghost use Rattle.fx25_blocks.specs.Tags.{IsTag};
ghost use Rattle.fx25_blocks.specs.UnsureBlocks.{EndsUnsureBlock};
ghost use Rattle.hdlc_framer.specs.Frames.{IsFrame, EndsFrame};
ghost use Rattle.hdlc_framer.specs.Held.{HoldsFrame};
ghost use Rattle.fx25_receiver.specs.declared.heard.Heard.{Heard};
ghost use Rattle.fx25_receiver.specs.Certainty.{certainties};
ghost use Rattle.fx25_receiver.specs.Hearing.{HasTakenBelow, IsAt};
ghost use Rattle.fx25_receiver.specs.Held.{LaneHasTaken};

use crate::heard::Heard;
use crate::lane::Lane;
use crate::merging::put;
use fx25_blocks::{BlockFrame, TAGS, block_length};
use std::alloc::Global;
use tnc_base::{Octets, OutOfMemory};

/// A bit of a lane: its offset, and one past the last sample of its window.
#[derive(Clone, Copy)]
pub(crate) struct Place {
    pub offset: u8,
    pub end: u64,
}

/// Takes the frames in blocks that end with the last bit of a lane. Nearly always there is none, and then nothing is
/// done: what has room for a frame stands in a function of its own, since that room costs time even if it is not used.
pub(crate) fn hear_blocks(
    alloc: Global,
    lane: &Lane,
    place: Place,
    kept: &mut Vec<Heard>,
    given: &mut Vec<Heard>,
) -> Result<(), OutOfMemory>
    ensures { OnOk result ((x : List ℤ) (before : List Heard) → IsAt place x
        → LaneHasTaken lane.now place.offset x
        → HasTakenBelow 1 kept.old.items x (before ++ given.old.items)
        → HasTakenBelow 12 kept.new.items x (before ++ given.new.items)) }
{
    if lane.is_idle() {
        Ok(())
    } else {
        hear_tags(alloc, lane, place, kept, given)
    }
}

/// Takes the frame in the block of each tag, if one ends with the last bit of a lane.
#[cold]
fn hear_tags(
    alloc: Global,
    lane: &Lane,
    place: Place,
    kept: &mut Vec<Heard>,
    given: &mut Vec<Heard>,
) -> Result<(), OutOfMemory>
    ensures { OnOk result ((x : List ℤ) (before : List Heard) → IsAt place x
        → LaneHasTaken lane.now place.offset x
        → HasTakenBelow 1 kept.old.items x (before ++ given.old.items)
        → HasTakenBelow 12 kept.new.items x (before ++ given.new.items)) }
{
    for below in 0..TAGS {
        let tag = below + 1;
        hear_block(alloc, lane.block(tag), tag, place, kept, given)?;
    }
    Ok(())
}

/// Takes the frame that ended plainly with the last bit of a lane, if `plain` says that one did.
pub(crate) fn hear_frame(
    alloc: Global,
    lane: &Lane,
    plain: bool,
    place: Place,
    kept: &mut Vec<Heard>,
    given: &mut Vec<Heard>,
) -> Result<(), OutOfMemory>
    requires { plain ≡ true → (octets : List ℕ) × IsFrame octets × HoldsFrame lane.now.deframer octets }
    ensures { OnOk result ((x : List ℤ) (before : List Heard) → IsAt place x
        → (plain ≡ true → (octets : List ℕ) × EndsFrame (bits place.offset x) octets)
        → ((octets : List ℕ) → EndsFrame (bits place.offset x) octets
        → (plain ≡ true) × HoldsFrame lane.now.deframer octets)
        → HasTakenBelow 0 kept.old.items x (before ++ given.old.items)
        → HasTakenBelow 1 kept.new.items x (before ++ given.new.items)) }
{
    if plain {
        hear_plainly(alloc, lane.octets(), place, kept, given)
    } else {
        Ok(())
    }
}

/// Takes the frame that ended plainly with a bit.
#[cold]
fn hear_plainly(
    alloc: Global,
    octets: &[u8],
    place: Place,
    kept: &mut Vec<Heard>,
    given: &mut Vec<Heard>,
) -> Result<(), OutOfMemory>
    ensures { OnOk result ((x : List ℤ) (before : List Heard) → IsAt place x
        → EndsFrame (bits place.offset x) octets.now
        → HasTakenBelow 0 kept.old.items x (before ++ given.old.items)
        → HasTakenBelow 1 kept.new.items x (before ++ given.new.items)) }
{
    let octets = Octets::from_slice(alloc, octets)?;
    let item = Heard {
        end: place.end,
        lane: place.offset,
        tag: 0,
        octets,
        at: place.end,
    };
    put(alloc, item, kept, given)?;
    Ok(())
}

/// Takes the frame of a tag's block, if one ended with a bit.
fn hear_block(
    alloc: Global,
    found: Option<BlockFrame>,
    tag: u8,
    place: Place,
    kept: &mut Vec<Heard>,
    given: &mut Vec<Heard>,
) -> Result<(), OutOfMemory>
    requires { IsTag tag }
    ensures { OnOk result ((x : List ℤ) (before : List Heard) → IsAt place x
        → IfSome found (λ found. EndsUnsureBlock (bits place.offset x) (certainties place.offset x) tag
        found.octets.items found.over)
        → IfNone found ((frame : List ℕ) → (over : ℕ)
        → ¬ EndsUnsureBlock (bits place.offset x) (certainties place.offset x) tag frame over)
        → HasTakenBelow tag kept.old.items x (before ++ given.old.items)
        → HasTakenBelow (tag + 1) kept.new.items x (before ++ given.new.items)) }
{
    match found {
        None => Ok(()),
        Some(found) => {
            let octets = Octets::from_slice(alloc, found.octets.as_slice())?;
            let item = Heard {
                end: place.end,
                lane: place.offset,
                tag,
                octets,
                at: plain_end(place.end, found.over, block_length(tag)),
            };
            put(alloc, item, kept, given)?;
            Ok(())
        }
    }
}

/// Where a frame would have ended that was over after so many bits of a block of so many octets, if the block ended at
/// `end`.
fn plain_end(end: u64, over: usize, octets: usize) -> u64
    ensures { over ≤ 8 * octets → 64 * octets ≤ end → result + 8 * (8 * octets) ≡ end + 8 * over }
{
    let following = (octets as u64).saturating_mul(64);
    let before = (over as u64).saturating_mul(8);
    end.saturating_sub(following).saturating_add(before)
}
