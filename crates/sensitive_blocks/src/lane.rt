//! A lane: its plain frames, its blocks, and where its last bits ended.
ghost use Rattle.std.specs.Prelude.{◌≡◌, ◌+◌, ◌<◌, ℕ, List, [], ◌∷◌, ◌++◌, length, slice_index_or, true, IfOk, IfSome};
ghost use Rattle.std.specs.List.{All};
ghost use Rattle.std.specs.Option.{IfNone};
ghost use Rattle.tone_table.specs.declared.tone.Tone.{Tone};
ghost use Rattle.nrzi_bits.specs.Line.{bits_of};
ghost use Rattle.hdlc_framer.specs.Frames.{IsFrame, EndsFrame};
ghost use Rattle.hdlc_framer.specs.Held.{HoldsFrame};
ghost use Rattle.fx25_blocks.specs.Tags.{IsTag};
ghost use Rattle.fx25_blocks.specs.UnsureBlocks.{EndsUnsureBlock};
ghost use Rattle.fx25_receiver.specs.Certainty.{certainty};
ghost use Rattle.sensitive_blocks.specs.HeldLane.{LaneHasRead};

use crate::readings::LANES;
use fx25_blocks::BlockFrame;
use fx25_receiver::{Lane, certainty};
use std::alloc::Global;
use std::marker::Model;
use tnc_base::OutOfMemory;
use tone_table::Tone;

/// A block has at most 2040 bits, and so many ends are kept.
const RING: usize = 2048;

/// The tones of one lane, as plain bits and as blocks, and where its last bits ended.
#[derive(Drop)]
pub(crate) struct TimedLane {
    lane: Lane,
    ends: [u64; 2048],
    next: usize,
    ghost place: { next < 2048 },
}

impl Model for TimedLane {
    ghost use Rattle.sensitive_blocks.specs.HeldLane.{HeldLane};

    ghost Value = { HeldLane };

    ghost view = { λ s. record { lane = s.lane; ends = s.ends; next = s.next } };
}

impl TimedLane {
    /// A lane that has read nothing.
    pub(crate) fn new() -> TimedLane
        ensures { LaneHasRead result [] [] [] }
    {
        TimedLane {
            lane: Lane::new(),
            ends: [0; 2048],
            next: 0,
        }
    }

    /// Takes the next tone, whose bit ends at `end` with this window, and says whether a frame ends plainly with it. How sure
    /// the window is costs a division, so this is asked only while a block can come.
    pub(crate) fn push(&mut self, tone: Tone, end: u64, window: &[i16; 8]) -> bool
        ensures has_read { (tones : List Tone) (numbers ends : List ℕ) → LaneHasRead self.old tones numbers ends
            → LaneHasRead self.new (tones ++ tone ∷ []) (numbers ++ certainty window.now ∷ []) (ends ++ end ∷ []) }
        ensures holds { result ≡ true
            → (octets : List ℕ) × IsFrame octets × HoldsFrame self.new.lane.deframer octets }
        ensures heard { (tones : List Tone) (numbers ends : List ℕ) → LaneHasRead self.old tones numbers ends
            → result ≡ true → (octets : List ℕ) × EndsFrame (bits_of (tones ++ tone ∷ [])) octets }
        ensures frame { (tones : List Tone) (numbers ends octets : List ℕ) → LaneHasRead self.old tones numbers ends
            → EndsFrame (bits_of (tones ++ tone ∷ [])) octets
            → (result ≡ true) × HoldsFrame self.new.lane.deframer octets }
    {
        self.ends[self.next] = end;
        self.next = (self.next + 1) % RING;
        if self.lane.is_awake() {
            self.lane.push_sure(tone, certainty(window))
        } else {
            self.lane.push(tone)
        }
    }

    /// The octets of the plain frame that the last tone ended.
    pub(crate) fn octets(&self) -> &[u8]
        requires { (octets : List ℕ) × IsFrame octets × HoldsFrame self.now.lane.deframer octets }
        ensures { (octets : List ℕ) → IsFrame octets → HoldsFrame self.now.lane.deframer octets
            → result.now ≡ octets }
    {
        self.lane.octets()
    }

    /// The frame of the block of a tag that the last tone ended, its least sure octets being taken as unknown.
    pub(crate) fn block(&self, tag: u8) -> Option<BlockFrame>
        requires { IsTag tag }
        ensures frame { (tones : List Tone) (numbers ends : List ℕ) → LaneHasRead self.now tones numbers ends
            → IfSome result (λ found. EndsUnsureBlock (bits_of tones) numbers tag found.octets.items found.over) }
        ensures none { (tones : List Tone) (numbers ends : List ℕ) → LaneHasRead self.now tones numbers ends
            → IfNone result ((frame : List ℕ) → (over : ℕ) → ¬ EndsUnsureBlock (bits_of tones) numbers tag frame over) }
    {
        self.lane.block(tag)
    }

    /// True only if the last tone ended no block.
    pub(crate) fn is_idle(&self) -> bool
        ensures { (tones : List Tone) (numbers ends : List ℕ) → LaneHasRead self.now tones numbers ends → result ≡ true
            → (tag : ℕ) → (frame : List ℕ) → (over : ℕ) → ¬ EndsUnsureBlock (bits_of tones) numbers tag frame over }
    {
        self.lane.is_idle()
    }

    /// Where the bit ended that came so many before the last.
    pub(crate) fn end_before(&self, back: usize) -> u64
        requires { back < 2048 }
        ensures { (tones : List Tone) (numbers ends : List ℕ) (index : ℕ) → LaneHasRead self.now tones numbers ends
            → index + back + 1 ≡ length ends → result ≡ slice_index_or ends index 0 }
    {
        self.ends[(self.next + (2 * RING - 1) - back) % RING]
    }
}

/// The lanes, which have read nothing.
pub(crate) fn new_lanes(alloc: Global) -> Result<Vec<TimedLane>, OutOfMemory>
    ensures count { IfOk result (λ lanes. length lanes.items ≡ 26) }
    ensures fresh { IfOk result (λ lanes. All (λ lane. LaneHasRead lane [] [] []) lanes.items) }
{
    let mut lanes = Vec::new(alloc);
    for _ in 0..LANES {
        lanes.push(TimedLane::new())?;
    }
    Ok(lanes)
}
