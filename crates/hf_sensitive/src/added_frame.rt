//! What one added lane hears when a place is decided.

ghost use Rattle.std.specs.Prelude.{◌≡◌, true, ◌+◌, ◌<◌, ◌≤◌, ◌^◌, ℕ, ℤ, List, OnOk};
ghost use Rattle.std.specs.List.{All};
ghost use Rattle.hdlc_framer.specs.Frames.{IsFrame};
ghost use Rattle.hdlc_framer.specs.Held.{HoldsFrame};
ghost use Rattle.tone_tracking.specs.Clock.{changes};
ghost use Rattle.sensitive_receiver.specs.AddedCandidates.{HasPath};
ghost use Rattle.hf_sensitive.specs.AddedCandidates.{is_in_time};
ghost use Rattle.hf_sensitive.specs.Found.{AddsAmong, CanBePutFrom};
ghost use Rattle.hf_sensitive.specs.HeldBanks.{HoldsFrameOf, IsLastPlace, LaneStandsFor};
ghost use Rattle.hf_sensitive.specs.Lanes.{bank_of, delay_of, is_read_at, lane_bits, lane_tones};

use ax25_address::read_path;
use frame_merge::Candidate;
use hf_tracking::HfTones;
use slicer_bank::ToneLane;
use std::alloc::Global;
use tnc_base::{Octets, OutOfMemory};
use tone_table::Tone;

/// The first of the lanes that are added to one for each offset of a bit.
pub(crate) const FIRST: u8 = 32;

/// One past the last lane.
pub const LANES: u8 = 59;

/// A place, and which lane reads it, if it does.
#[derive(Clone, Copy)]
pub(crate) struct Reading {
    pub(crate) lane: u8,
    pub(crate) place: u64,
    pub(crate) reads: bool,
}

/// Has a lane read its bit at the place that was decided last, if it reads one there, and adds the frame that ends with
/// it.
pub(crate) fn hear(
    alloc: Global,
    tones: &HfTones,
    lane: &mut ToneLane,
    reading: Reading,
    found: &mut Vec<Candidate>,
) -> Result<(), OutOfMemory>
    requires number { (32 ≤ reading.lane) × (reading.lane < 59) }
    requires bank { bank_of reading.lane ≡ tones.now.bank }
    requires room { tones.now.count < 2 ^ 49 }
    requires place { reading.place < 2 ^ 48 }
    ensures read { (x : List ℤ) → IsLastPlace tones.now reading.place x
        → reading.reads ≡ is_read_at x reading.lane reading.place
        → LaneStandsFor lane.old (lane_tones x reading.lane reading.place)
        → LaneStandsFor lane.new (lane_tones x reading.lane (reading.place + 1)) }
    ensures found { OnOk result ((x : List ℤ) → IsLastPlace tones.now reading.place x
        → reading.reads ≡ is_read_at x reading.lane reading.place
        → LaneStandsFor lane.old (lane_tones x reading.lane reading.place)
        → AddsAmong reading.place (reading.place + 1) reading.lane (reading.lane + 1) x
        found.old.items found.new.items) }
    ensures bounds { (low : ℕ) → low ≤ reading.place + 7
        → OnOk result (All (CanBePutFrom low) found.old.items → All (CanBePutFrom low) found.new.items) }
{
    let reads = reading.reads;
    if !reads {
        return Ok(());
    }
    let tone = tones.tone_before(delay_of(reading.lane));
    if !lane.push(tone) {
        return Ok(());
    }
    add_frame(alloc, tones, lane, reading, found)
}

/// Adds the frame that ends with the bit that a lane read last, if it begins with a path and its flag is in time. Few
/// bits end a frame, so this stays apart from what each bit costs.
#[cold]
fn add_frame(
    alloc: Global,
    tones: &HfTones,
    lane: &ToneLane,
    reading: Reading,
    found: &mut Vec<Candidate>,
) -> Result<(), OutOfMemory>
    requires number { (32 ≤ reading.lane) × (reading.lane < 59) }
    requires bank { bank_of reading.lane ≡ tones.now.bank }
    requires reads { reading.reads ≡ true }
    requires holds { (octets : List ℕ) × IsFrame octets × HoldsFrame lane.now.deframer octets }
    requires room { tones.now.count < 2 ^ 49 }
    requires place { reading.place < 2 ^ 48 }
    ensures found { OnOk result ((x : List ℤ) → IsLastPlace tones.now reading.place x
        → reading.reads ≡ is_read_at x reading.lane reading.place
        → HoldsFrameOf lane.now (lane_bits x reading.lane (reading.place + 1))
        → AddsAmong reading.place (reading.place + 1) reading.lane (reading.lane + 1) x
        found.old.items found.new.items) }
    ensures bounds { (low : ℕ) → low ≤ reading.place + 7
        → OnOk result (All (CanBePutFrom low) found.old.items → All (CanBePutFrom low) found.new.items) }
{
    if !ends_in_time(tones, reading.lane) {
        return Ok(());
    }
    if !has_path(lane.octets()) {
        return Ok(());
    }
    let octets = Octets::from_slice(alloc, lane.octets())?;
    found.push(Candidate {
        end: reading.place + 8 - u64::from(delay_of(reading.lane)),
        offset: reading.lane,
        octets,
    })?;
    Ok(())
}

/// Whether the bit that a lane reads is the last 0 of a flag, also by the plain count of places: the tones two bits and
/// one bit before agree, and the tone of the bit is another.
fn ends_in_time(tones: &HfTones, lane: u8) -> bool
    requires lane { (32 ≤ lane) × (lane < 59) }
    requires bank { bank_of lane ≡ tones.now.bank }
    requires room { tones.now.count < 2 ^ 49 }
    ensures { (x : List ℤ) (place : ℕ) → IsLastPlace tones.now place x → result ≡ is_in_time x lane place }
{
    let delay = delay_of(lane);
    let tone = tones.tone_before(delay);
    let one_before = tones.tone_before(delay + 8);
    let two_before = tones.tone_before(delay + 16);
    has_changed(one_before, tone) && !has_changed(two_before, one_before)
}

/// How many places before the last one a lane reads.
fn delay_of(lane: u8) -> u8
    requires { (32 ≤ lane) × (lane < 59) }
    ensures delay { result ≡ delay_of lane }
    ensures bound { result ≤ 1 }
{
    if (lane - FIRST) % 3 == 0 { 0 } else { 1 }
}

/// Whether two tones differ.
fn has_changed(before: Tone, tone: Tone) -> bool
    ensures { result ≡ changes before tone }
{
    match (before, tone) {
        (Tone::Mark, Tone::Mark) | (Tone::Space, Tone::Space) => false,
        (Tone::Mark, Tone::Space) | (Tone::Space, Tone::Mark) => true,
    }
}

/// Whether octets begin with a path.
fn has_path(octets: &[u8]) -> bool
    ensures has { result ≡ true → HasPath octets.now }
    ensures lacks { HasPath octets.now → result ≡ true }
{
    read_path(octets).is_ok()
}
