//! One lane of the bank: a lane of tones that takes windows.

ghost use Rattle.std.specs.Prelude.{◌≡◌, ◌↔◌, ℕ, ◌+◌, ◌<◌, ◌≤◌, ℤ, List, [], ◌∷◌, ◌++◌, length, take, true, false, Some};
ghost use Rattle.std.specs.Prelude.{IfOk, OnOk, IsTrue};
ghost use Rattle.std.specs.List.{All};
ghost use Rattle.tone_table.specs.declared.tone.Tone.{Tone};
ghost use Rattle.nrzi_bits.specs.Line.{bits_of};
ghost use Rattle.hdlc_framer.specs.Frames.{IsFrame, EndsFrame};
ghost use Rattle.hdlc_framer.specs.Carrier.{HoldsCarrier};
ghost use Rattle.hdlc_framer.specs.Held.{HoldsFrame, flags_asked};
ghost use Rattle.slicer_bank.specs.Busy.{HearsCarrier};
ghost use Rattle.slicer_bank.specs.Heard.{AreAlike};
ghost use Rattle.slicer_bank.specs.Held.{AsksFor, LaneStandsFor, LanesStandFor};

use crate::tone_lane::ToneLane;
use frame_merge::Candidate;
use std::alloc::Global;
use std::marker::Model;
use tnc_base::OutOfMemory;
use tone_table::Tone;

/// One lane for each offset of a bit.
pub(crate) const LANES: u64 = 8;

/// The lane of the tones of the windows of one offset. A job on a thread of its own leaves in `heard` what the lane
/// heard, or `None` if memory ran out.
#[derive(Drop)]
pub(crate) struct Lane {
    tones: ToneLane,
    pub(crate) heard: Option<Vec<Candidate>>,
}

impl Model for Lane {
    ghost use Rattle.std.specs.Prelude.{option_map};
    ghost use Rattle.slicer_bank.specs.Held.{HeldLane};

    ghost Value = { HeldLane };

    ghost view = { λ s. record {
      before = s.tones.before;
      deframer = s.tones.deframer;
      heard = option_map
          (λ v. v.items) s.heard;
    } };
}

impl Lane {
    /// A lane that has taken nothing, and listens for so many flags in a row.
    pub(crate) fn listening(flags: u8) -> Lane
        requires { (1 ≤ flags) × (flags ≤ 8) }
        ensures stands_for { LaneStandsFor result [] }
        ensures asks { AsksFor flags result }
    {
        Lane {
            tones: ToneLane::listening(flags),
            heard: None,
        }
    }

    /// Takes the tone of the next window, and says whether a frame ends with it.
    pub(crate) fn push(&mut self, tone: Tone) -> bool
        ensures stands_for { (tones : List Tone) → LaneStandsFor self.old tones
            → LaneStandsFor self.new (tones ++ tone ∷ []) }
        ensures holds { result ≡ true → (octets : List ℕ) × IsFrame octets × HoldsFrame self.new.deframer octets }
        ensures heard { (tones : List Tone) → LaneStandsFor self.old tones → result ≡ true
            → (octets : List ℕ) × EndsFrame (bits_of (tones ++ tone ∷ [])) octets }
        ensures frame { (tones : List Tone) (octets : List ℕ) → LaneStandsFor self.old tones
            → EndsFrame (bits_of (tones ++ tone ∷ [])) octets
            → (result ≡ true) × HoldsFrame self.new.deframer octets }
        ensures asks { flags_asked self.new.deframer ≡ flags_asked self.old.deframer }
    {
        self.tones.push(tone)
    }

    /// Takes the tones of the next eight windows at once, if no flag and no abort ends with any of them and no bit is an
    /// inserted 0. Otherwise it takes none.
    pub(crate) fn push_eight(&mut self, eight: &[Tone; 8]) -> bool
        ensures taken { (tones : List Tone) → LaneStandsFor self.old tones → result ≡ true
            → LaneStandsFor self.new (tones ++ eight.now) }
        ensures quiet { (tones : List Tone) (k : ℕ) (octets : List ℕ) → LaneStandsFor self.old tones → result ≡ true
            → k < 8 → ¬ EndsFrame (bits_of (tones ++ take (k + 1) eight.now)) octets }
        ensures left { (tones : List Tone) → LaneStandsFor self.old tones → result ≡ false
            → LaneStandsFor self.new tones }
        ensures asks { flags_asked self.new.deframer ≡ flags_asked self.old.deframer }
    {
        self.tones.push_eight(eight)
    }

    /// The octets of the frame that the last window ended, without its check sequence.
    pub(crate) fn octets(&self) -> &[u8]
        requires { (octets : List ℕ) × IsFrame octets × HoldsFrame self.now.deframer octets }
        ensures { (octets : List ℕ) → IsFrame octets → HoldsFrame self.now.deframer octets → result.now ≡ octets }
    {
        self.tones.octets()
    }

    /// Whether the bits of the windows hold a carrier of as many flags as the lane listens for.
    pub(crate) fn busy(&self) -> bool
        ensures { (tones : List Tone) → LaneStandsFor self.now tones
            → (IsTrue result ↔ HoldsCarrier (flags_asked self.now.deframer) (bits_of tones)) }
    {
        self.tones.busy()
    }

    /// What the lane heard in its last job, which it keeps no more.
    pub(crate) fn take_heard(&mut self) -> Result<Vec<Candidate>, OutOfMemory>
        ensures heard { IfOk result (λ heard. self.old.heard ≡ Some heard.items) }
        ensures alike { AreAlike self.new self.old }
    {
        self.heard.take().ok_or(OutOfMemory)
    }
}

/// The eight lanes, which have taken nothing and listen for so many flags in a row.
pub(crate) fn new_lanes(alloc: Global, flags: u8) -> Result<Vec<Lane>, OutOfMemory>
    requires { (1 ≤ flags) × (flags ≤ 8) }
    ensures count { IfOk result (λ lanes. length lanes.items ≡ 8) }
    ensures stand_for { IfOk result (λ lanes. LanesStandFor lanes.items []) }
    ensures ask { IfOk result (λ lanes. All (AsksFor flags) lanes.items) }
{
    let mut lanes = Vec::new(alloc);
    for _ in 0..LANES {
        lanes.push(Lane::listening(flags))?;
    }
    Ok(lanes)
}

/// Whether the bits of some lane hold a carrier.
pub(crate) fn is_some_busy(lanes: &[Lane]) -> bool
    requires { length lanes.now ≡ 8 }
    ensures { (flags : ℕ) (x : List ℤ) → LanesStandFor lanes.now x → All (AsksFor flags) lanes.now
        → (IsTrue result ↔ HearsCarrier flags x) }
{
    for lane in lanes {
        if lane.busy() {
            return true;
        }
    }
    false
}
