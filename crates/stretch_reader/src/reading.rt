//! Turns of reading.

ghost use Rattle.std.specs.Prelude.{◌≡◌, ◌+◌, ◌<◌, ◌≤◌, ◌^◌, ℕ, List, [], ◌∷◌, ◌++◌, length, IfOk, OnOk};
ghost use Rattle.std.specs.List.{All};
ghost use Rattle.sample_ring.specs.declared.view.Entry.{Entry};
ghost use Rattle.sample_ring.specs.Ends.{ring_id, ring_len, reader_ring, position_of, reads_of};
ghost use Rattle.frame_merge.specs.declared.candidate.Candidate.{Candidate};
ghost use Rattle.slicer_bank.specs.Stretches.{Stretch};
ghost use Rattle.stretch_reader.specs.Turns.{Finishes, HoldBut, ListenBut, MadeTurn, Took};

use crate::lanes::StretchLanes;
use crate::turn::Turn;
use frame_merge::Candidate;
use sample_ring::{Got, Reader, Ring};
use slicer_bank::LaneGap;
use std::alloc::Global;
use tnc_base::OutOfMemory;

/// The most answers that the reader takes in one turn: those of a second.
const MOST_READS: u32 = 9600;

/// Makes a turn of reading: until the ring is empty or has ended, or 9600 times. The lanes hear what the reader was given in
/// one block, or in one for each stretch if there are gaps, which are reported of `lane`. The end of the ring leaves the
/// last stretch unfinished.
pub fn read_on<L: StretchLanes>(
    alloc: Global,
    ring: &Ring,
    reader: &mut Reader,
    lane: u8,
    lanes: &mut L,
) -> Result<Turn, OutOfMemory>
    requires ring { reader_ring reader.old ≡ ring_id ring.now }
    requires place { L.place lanes.old ≡ position_of reader.old }
    requires room { position_of reader.old < 2 ^ 48 }
    requires step { L.in_step lanes.old }
    ensures ring { reader_ring reader.new ≡ reader_ring reader.old }
    ensures grown { (entries : List Entry) × (reads_of reader.new ≡ reads_of reader.old ++ entries) }
    ensures made { IfOk result (λ turn. MadeTurn (L.heard (L.sensitive lanes.old)) (L.holds lanes.old)
        (L.holds lanes.new) (L.listens lanes.old) (L.listens lanes.new) (ring_len ring.now) lane
        reader.old reader.new turn) }
    ensures comes { IfOk result (λ turn. All (L.comes (L.sensitive lanes.old) (position_of reader.old))
        turn.items.items) }
    ensures place { OnOk result (L.place lanes.new ≡ position_of reader.new) }
    ensures room { OnOk result (position_of reader.new < 2 ^ 48) }
    ensures step { OnOk result (L.in_step lanes.new) }
    ensures sensitive { L.sensitive lanes.new ≡ L.sensitive lanes.old }
    ensures flags { L.flags lanes.new ≡ L.flags lanes.old }
{
    let mut waiting = Vec::new(alloc);
    let mut turn = read_turn(alloc, ring, reader, lane, lanes, &mut waiting)?;
    lanes.hear(&waiting, &mut turn.items)?;
    Ok(turn)
}

/// Reads for a turn. The samples after the last gap still wait then.
fn read_turn<L: StretchLanes>(
    alloc: Global,
    ring: &Ring,
    reader: &mut Reader,
    lane: u8,
    lanes: &mut L,
    waiting: &mut Vec<i16>,
) -> Result<Turn, OutOfMemory>
    requires ring { reader_ring reader.old ≡ ring_id ring.now }
    requires place { L.place lanes.old + length waiting.old.items ≡ position_of reader.old }
    requires room { position_of reader.old < 2 ^ 48 }
    requires step { L.in_step lanes.old }
    ensures ring { reader_ring reader.new ≡ reader_ring reader.old }
    ensures grown { (entries : List Entry) × (reads_of reader.new ≡ reads_of reader.old ++ entries) }
    ensures made { IfOk result (λ turn. MadeTurn (L.heard (L.sensitive lanes.old))
        (HoldBut (L.holds lanes.old) waiting.old.items) (HoldBut (L.holds lanes.new) waiting.new.items)
        (ListenBut (L.listens lanes.old) waiting.old.items) (ListenBut (L.listens lanes.new) waiting.new.items)
        (ring_len ring.now) lane reader.old reader.new turn) }
    ensures comes { IfOk result (λ turn. All (L.comes (L.sensitive lanes.old) (L.place lanes.old)) turn.items.items) }
    ensures up { OnOk result (L.place lanes.old ≤ L.place lanes.new) }
    ensures place { OnOk result (L.place lanes.new + length waiting.new.items ≡ position_of reader.new) }
    ensures room { OnOk result (position_of reader.new < 2 ^ 48) }
    ensures step { OnOk result (L.in_step lanes.new) }
    ensures sensitive { L.sensitive lanes.new ≡ L.sensitive lanes.old }
    ensures flags { L.flags lanes.new ≡ L.flags lanes.old }
{
    let mut turn = Turn {
        items: Vec::new(alloc),
        gaps: Vec::new(alloc),
        ended: false,
    };
    for _ in 0..MOST_READS {
        match take(ring, reader, lane, lanes, waiting, &mut turn)? {
            Got::Item { .. } | Got::Gap { .. } => {}
            Got::Empty { .. } => return Ok(turn),
            Got::End { .. } => {
                turn.ended = true;
                return Ok(turn);
            }
        }
    }
    Ok(turn)
}

/// Reads once. A sample waits, and a gap has the lanes hear all that do. It tells the answer.
fn take<L: StretchLanes>(
    ring: &Ring,
    reader: &mut Reader,
    lane: u8,
    lanes: &mut L,
    waiting: &mut Vec<i16>,
    turn: &mut Turn,
) -> Result<Got, OutOfMemory>
    requires ring { reader_ring reader.old ≡ ring_id ring.now }
    requires place { L.place lanes.old + length waiting.old.items ≡ position_of reader.old }
    requires room { position_of reader.old < 2 ^ 48 }
    requires step { L.in_step lanes.old }
    ensures ring { reader_ring reader.new ≡ reader_ring reader.old }
    ensures grown { (entry : Entry) × (reads_of reader.new ≡ reads_of reader.old ++ entry ∷ []) }
    ensures took { IfOk result (λ got. Took (L.heard (L.sensitive lanes.old))
        (HoldBut (L.holds lanes.old) waiting.old.items) (HoldBut (L.holds lanes.new) waiting.new.items)
        (ListenBut (L.listens lanes.old) waiting.old.items) (ListenBut (L.listens lanes.new) waiting.new.items)
        (ring_len ring.now) lane reader.old reader.new got turn.old.gaps.items turn.new.gaps.items
        turn.old.items.items turn.new.items.items) }
    ensures comes { (from : ℕ) → from ≤ L.place lanes.old
        → OnOk result (All (L.comes (L.sensitive lanes.old) from) turn.old.items.items
        → All (L.comes (L.sensitive lanes.old) from) turn.new.items.items) }
    ensures up { OnOk result (L.place lanes.old ≤ L.place lanes.new) }
    ensures place { OnOk result (L.place lanes.new + length waiting.new.items ≡ position_of reader.new) }
    ensures room { OnOk result (position_of reader.new < 2 ^ 48) }
    ensures step { OnOk result (L.in_step lanes.new) }
    ensures ended { turn.new.ended ≡ turn.old.ended }
    ensures sensitive { L.sensitive lanes.new ≡ L.sensitive lanes.old }
    ensures flags { L.flags lanes.new ≡ L.flags lanes.old }
{
    let got = reader.read(ring);
    match got {
        Got::Item { sample, .. } => waiting.push(sample)?,
        Got::Gap { from, to } => {
            end_stretch(lanes, waiting, &mut turn.items)?;
            lanes.begin_at(to)?;
            turn.gaps.push(LaneGap { lane, from, to })?;
        }
        Got::Empty { .. } | Got::End { .. } => {}
    }
    Ok(got)
}

/// Has the lanes hear the samples that wait, with which their stretch ends.
fn end_stretch<L: StretchLanes>(
    lanes: &mut L,
    waiting: &mut Vec<i16>,
    items: &mut Vec<Candidate>,
) -> Result<(), OutOfMemory>
    requires room { L.place lanes.old + length waiting.old.items < 2 ^ 48 }
    requires step { L.in_step lanes.old }
    ensures rest { OnOk result ((s : Stretch) (own : List Candidate)
        → HoldBut (L.holds lanes.old) waiting.old.items s own
        → Finishes (L.heard (L.sensitive lanes.old)) s own items.old.items items.new.items) }
    ensures listens { OnOk result ((s : Stretch) → ListenBut (L.listens lanes.old) waiting.old.items s
        → L.listens lanes.new s) }
    ensures comes { (from : ℕ) → from ≤ L.place lanes.old
        → OnOk result (All (L.comes (L.sensitive lanes.old) from) items.old.items
        → All (L.comes (L.sensitive lanes.old) from) items.new.items) }
    ensures none { OnOk result (waiting.new.items ≡ []) }
    ensures sensitive { L.sensitive lanes.new ≡ L.sensitive lanes.old }
    ensures flags { L.flags lanes.new ≡ L.flags lanes.old }
{
    lanes.hear(waiting, items)?;
    waiting.clear();
    lanes.finish(items)
}
