//! What a lane hears in its windows.

ghost use Rattle.std.specs.Prelude.{◌≡◌, ℕ, ◌-◌, ◌<◌, ◌^◌, List, [], ◌∷◌, ◌++◌, OnOk};
ghost use Rattle.std.specs.List.{All};
ghost use Rattle.tone_table.specs.declared.tone.Tone.{Tone};
ghost use Rattle.nrzi_bits.specs.Line.{bits_of};
ghost use Rattle.offset_slicers.specs.Decision.{tone_of};
ghost use Rattle.hdlc_framer.specs.Frames.{IsFrame};
ghost use Rattle.hdlc_framer.specs.Held.{HoldsFrame, flags_asked};
ghost use Rattle.slicer_bank.specs.Held.{LaneStandsFor};
ghost use Rattle.slicer_bank.specs.Heard.{Adds, AddsAll, candidate_at, tones_in};
ghost use Rattle.slicer_bank.specs.Merging.{CanBePutPast};

use crate::eight::tones_of;
use crate::lane::Lane;
use frame_merge::Candidate;
use offset_slicers::decide;
use std::alloc::Global;
use tnc_base::{Octets, OutOfMemory};
use tone_table::Tone;

/// Gives a lane its next eight windows, the first of which ends at `end`, and adds to `found` the frames that end with
/// them. Mostly none does, and then the lane takes their bits at once.
pub(crate) fn hear_eight(
    alloc: Global,
    lane: &mut Lane,
    offset: u8,
    end: u64,
    windows: &[i16; 64],
    found: &mut Vec<Candidate>,
) -> Result<(), OutOfMemory>
    requires lane { offset < 8 }
    requires room { end < 2 ^ 63 }
    ensures heard { OnOk result ((tones : List Tone) → LaneStandsFor lane.old tones
        → LaneStandsFor lane.new (tones ++ tones_in 8 windows.now)
        × AddsAll offset end tones (tones_in 8 windows.now) found.old.items found.new.items) }
    ensures bounds { (position : ℕ) → position < end
        → OnOk result (All (CanBePutPast position) found.old.items → All (CanBePutPast position) found.new.items) }
    ensures asks { flags_asked lane.new.deframer ≡ flags_asked lane.old.deframer }
{
    let tones = tones_of(windows);
    if lane.push_eight(&tones) {
        return Ok(());
    }
    hear_tones(alloc, lane, offset, end, &tones, found)
}

/// Gives a lane eight tones one by one.
fn hear_tones(
    alloc: Global,
    lane: &mut Lane,
    offset: u8,
    end: u64,
    tones: &[Tone; 8],
    found: &mut Vec<Candidate>,
) -> Result<(), OutOfMemory>
    requires lane { offset < 8 }
    requires room { end < 2 ^ 63 }
    ensures heard { OnOk result ((x : List Tone) → LaneStandsFor lane.old x
        → LaneStandsFor lane.new (x ++ tones.now) × AddsAll offset end x tones.now found.old.items found.new.items) }
    ensures bounds { (position : ℕ) → position < end
        → OnOk result (All (CanBePutPast position) found.old.items → All (CanBePutPast position) found.new.items) }
    ensures asks { flags_asked lane.new.deframer ≡ flags_asked lane.old.deframer }
{
    let mut at = end;
    for tone in tones {
        hear_tone(alloc, lane, offset, at, *tone, found)?;
        at += 8;
    }
    Ok(())
}

/// Gives a lane its next window, which ends at `end`, and adds to `found` the frame that ends with it.
pub(crate) fn hear(
    alloc: Global,
    lane: &mut Lane,
    offset: u8,
    end: u64,
    window: &[i16; 8],
    found: &mut Vec<Candidate>,
) -> Result<(), OutOfMemory>
    requires lane { offset < 8 }
    requires room { end < 2 ^ 64 - 1 }
    ensures stands_for { (tones : List Tone) → LaneStandsFor lane.old tones
        → LaneStandsFor lane.new (tones ++ tone_of window.now ∷ []) }
    ensures found { OnOk result ((tones : List Tone) → LaneStandsFor lane.old tones
        → Adds offset end (bits_of (tones ++ tone_of window.now ∷ [])) found.old.items found.new.items) }
    ensures bounds { (position : ℕ) → position < end
        → OnOk result (All (CanBePutPast position) found.old.items → All (CanBePutPast position) found.new.items) }
    ensures asks { flags_asked lane.new.deframer ≡ flags_asked lane.old.deframer }
{
    hear_tone(alloc, lane, offset, end, decide(window), found)
}

/// The same of a window that is decided.
fn hear_tone(
    alloc: Global,
    lane: &mut Lane,
    offset: u8,
    end: u64,
    tone: Tone,
    found: &mut Vec<Candidate>,
) -> Result<(), OutOfMemory>
    requires lane { offset < 8 }
    requires room { end < 2 ^ 64 - 1 }
    ensures stands_for { (tones : List Tone) → LaneStandsFor lane.old tones
        → LaneStandsFor lane.new (tones ++ tone ∷ []) }
    ensures found { OnOk result ((tones : List Tone) → LaneStandsFor lane.old tones
        → Adds offset end (bits_of (tones ++ tone ∷ [])) found.old.items found.new.items) }
    ensures bounds { (position : ℕ) → position < end
        → OnOk result (All (CanBePutPast position) found.old.items → All (CanBePutPast position) found.new.items) }
    ensures asks { flags_asked lane.new.deframer ≡ flags_asked lane.old.deframer }
{
    if !lane.push(tone) {
        return Ok(());
    }
    add_frame(alloc, lane, offset, end, found)
}

/// Adds to `found` the frame that the last tone of a lane ended. Few tones end a frame, so this stays apart from what
/// each tone costs.
#[cold]
fn add_frame(
    alloc: Global,
    lane: &Lane,
    offset: u8,
    end: u64,
    found: &mut Vec<Candidate>,
) -> Result<(), OutOfMemory>
    requires lane { offset < 8 }
    requires room { end < 2 ^ 64 - 1 }
    requires holds { (octets : List ℕ) × IsFrame octets × HoldsFrame lane.now.deframer octets }
    ensures found { OnOk result ((octets : List ℕ)
        × (found.new.items ≡ found.old.items ++ candidate_at end offset octets ∷ [])
        × ((other : List ℕ) → IsFrame other → HoldsFrame lane.now.deframer other → octets ≡ other)) }
    ensures bounds { (position : ℕ) → position < end
        → OnOk result (All (CanBePutPast position) found.old.items → All (CanBePutPast position) found.new.items) }
{
    let octets = Octets::from_slice(alloc, lane.octets())?;
    found.push(Candidate {
        end,
        offset,
        octets,
    })?;
    Ok(())
}
