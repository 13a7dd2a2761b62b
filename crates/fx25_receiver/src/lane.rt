//! One lane: its plain frames, and its blocks.
ghost use Rattle.std.specs.Prelude.{◌≡◌, ◌↔◌, ℕ, ℤ, List, [], ◌∷◌, ◌++◌, length, true, false, IfOk, IfSome};
ghost use Rattle.std.specs.Prelude.{IsTrue, ◌<◌, ◌≤◌, ◌+◌, max};
ghost use Rattle.std.specs.List.{All};
ghost use Rattle.std.specs.Option.{IfNone};
ghost use Rattle.tone_table.specs.declared.tone.Tone.{Tone};
ghost use Rattle.nrzi_bits.specs.Line.{bits_of};
ghost use Rattle.hdlc_framer.specs.Frames.{IsFrame, EndsFrame};
ghost use Rattle.hdlc_framer.specs.Held.{HoldsFrame};
ghost use Rattle.slicer_bank.specs.Heard.{tones_in};
ghost use Rattle.fx25_receiver.specs.Ahead.{NothingEndsInTones};
ghost use Rattle.fx25_blocks.specs.HeldCertainties.{StandsFor as AreKept};
ghost use Rattle.fx25_blocks.specs.Tags.{IsTag};
ghost use Rattle.fx25_blocks.specs.UnsureBlocks.{EndsUnsureBlock};
ghost use Rattle.fx25_blocks.specs.Coming.{IsBlockComing};
ghost use Rattle.fx25_receiver.specs.Certainty.{certainty};
ghost use Rattle.fx25_receiver.specs.Coming.{HearsBlock};
ghost use Rattle.fx25_receiver.specs.Held.{IsFresh, LaneStandsFor, LanesStandFor};
ghost use Rattle.fx25_receiver.specs.Known.{KnowsNumbers};

use crate::plain_frames::PlainFrames;
use crate::resting_reader::RestingReader;
use crate::window_certainty::certainty;
use fx25_blocks::{BlockFrame, Certainties};
use nrzi_bits::NrziIn;
use slicer_bank::{octet_of, tones_of};
use std::alloc::Global;
use std::marker::Model;
use tnc_base::OutOfMemory;
use tone_table::Tone;

/// How many lanes there are: one for each offset of a bit.
const LANES: u64 = 8;

/// The tones of one lane, as plain bits and as blocks.
#[derive(Drop)]
pub struct Lane {
    line: NrziIn,
    plain: PlainFrames,
    reader: RestingReader,
    certainties: Certainties,
}

impl Model for Lane {
    ghost use Rattle.fx25_receiver.specs.Held.{HeldLane};

    ghost Value = { HeldLane };

    ghost view = { λ s. record {
      line = s.line;
      deframer = s.plain.deframer;
      waiting = s.plain.waiting;
      reader = s.reader;
      certainties = s.certainties;
    } };
}

impl Lane {
    /// A lane that has taken nothing.
    pub fn new() -> Lane
        ensures { IsFresh result }
    {
        Lane {
            line: NrziIn::new(),
            plain: PlainFrames::new(),
            reader: RestingReader::new(),
            certainties: Certainties::new(),
        }
    }

    /// Takes the next tone, which is decided by a window, and says whether a frame ends plainly with it.
    #[inline(always)]
    pub(crate) fn push_window(&mut self, tone: Tone, window: &[i16; 8]) -> bool
        ensures stands_for { (tones : List Tone) → LaneStandsFor self.old tones
            → LaneStandsFor self.new (tones ++ tone ∷ []) }
        ensures knows { (numbers : List ℕ) → KnowsNumbers self.old.reader self.old.certainties numbers
            → KnowsNumbers self.new.reader self.new.certainties (numbers ++ certainty window.now ∷ []) }
        ensures holds { result ≡ true
            → (octets : List ℕ) × IsFrame octets × HoldsFrame self.new.deframer octets }
        ensures heard { (tones : List Tone) → LaneStandsFor self.old tones → result ≡ true
            → (octets : List ℕ) × EndsFrame (bits_of (tones ++ tone ∷ [])) octets }
        ensures frame { (tones : List Tone) (octets : List ℕ) → LaneStandsFor self.old tones
            → EndsFrame (bits_of (tones ++ tone ∷ [])) octets
            → (result ≡ true) × HoldsFrame self.new.deframer octets }
    {
        if self.is_awake() {
            return self.push_sure(tone, certainty(window));
        }
        self.push(tone)
    }

    /// True if a block may be coming in. Only then is it asked how sure the next tone is: the tag that wakes the reader
    /// comes before the block.
    #[inline(always)]
    pub fn is_awake(&self) -> bool
        ensures { IsTrue result ↔ (0 < self.now.reader.awake) }
    {
        self.reader.is_awake()
    }

    /// Takes the next tone, and how sure it is.
    pub fn push_sure(&mut self, tone: Tone, certainty: u32) -> bool
        ensures stands_for { (tones : List Tone) → LaneStandsFor self.old tones
            → LaneStandsFor self.new (tones ++ tone ∷ []) }
        ensures knows { (numbers : List ℕ) → KnowsNumbers self.old.reader self.old.certainties numbers
            → KnowsNumbers self.new.reader self.new.certainties (numbers ++ certainty ∷ []) }
        ensures holds { result ≡ true
            → (octets : List ℕ) × IsFrame octets × HoldsFrame self.new.deframer octets }
        ensures heard { (tones : List Tone) → LaneStandsFor self.old tones → result ≡ true
            → (octets : List ℕ) × EndsFrame (bits_of (tones ++ tone ∷ [])) octets }
        ensures frame { (tones : List Tone) (octets : List ℕ) → LaneStandsFor self.old tones
            → EndsFrame (bits_of (tones ++ tone ∷ [])) octets
            → (result ≡ true) × HoldsFrame self.new.deframer octets }
    {
        self.note(certainty);
        self.push(tone)
    }

    /// Keeps how sure the next tone is.
    fn note(&mut self, certainty: u32)
        ensures stands_for { (tones : List Tone) → LaneStandsFor self.old tones → LaneStandsFor self.new tones }
        ensures reader { self.new.reader ≡ self.old.reader }
        ensures kept { (numbers : List ℕ) → AreKept self.old.certainties numbers
            → AreKept self.new.certainties (numbers ++ certainty ∷ []) }
    {
        self.certainties.push(certainty);
    }

    /// Takes the next tone, and says whether a frame ends plainly with it.
    #[inline(always)]
    pub fn push(&mut self, tone: Tone) -> bool
        ensures stands_for { (tones : List Tone) → LaneStandsFor self.old tones
            → LaneStandsFor self.new (tones ++ tone ∷ []) }
        ensures knows { (numbers : List ℕ) (number : ℕ) → self.old.reader.awake ≡ 0
            → KnowsNumbers self.old.reader self.old.certainties numbers
            → KnowsNumbers self.new.reader self.new.certainties (numbers ++ number ∷ []) }
        ensures holds { result ≡ true
            → (octets : List ℕ) × IsFrame octets × HoldsFrame self.new.deframer octets }
        ensures heard { (tones : List Tone) → LaneStandsFor self.old tones → result ≡ true
            → (octets : List ℕ) × EndsFrame (bits_of (tones ++ tone ∷ [])) octets }
        ensures frame { (tones : List Tone) (octets : List ℕ) → LaneStandsFor self.old tones
            → EndsFrame (bits_of (tones ++ tone ∷ [])) octets
            → (result ≡ true) × HoldsFrame self.new.deframer octets }
        ensures certainties { self.new.certainties ≡ self.old.certainties }
        ensures awake { 0 < self.old.reader.awake
            → self.new.reader.reader.taken ≤ max 64 (self.old.reader.reader.taken + 1) }
        ensures woken { self.old.reader.awake ≡ 0 → 0 < self.new.reader.awake
            → self.new.reader.reader.taken ≤ 64 }
    {
        let last = self.reader.last_octet();
        let bit = self.line.step(tone);
        self.reader.push(bit);
        self.plain.push(last, self.reader.last_octet())
    }

    /// Takes the next eight windows at once if it reads no block and nothing can end with any of their bits, as is so of
    /// most. Otherwise it takes none of them, and they have to be pushed one by one.
    pub(crate) fn push_windows(&mut self, windows: &[i16; 64]) -> bool
        ensures taken { (tones : List Tone) → LaneStandsFor self.old tones → result ≡ true
            → LaneStandsFor self.new (tones ++ tones_in 8 windows.now) }
        ensures quiet { (tones : List Tone) → LaneStandsFor self.old tones → result ≡ true
            → NothingEndsInTones tones (tones_in 8 windows.now) }
        ensures left { (tones : List Tone) → LaneStandsFor self.old tones → result ≡ false
            → LaneStandsFor self.new tones }
        ensures knows { (numbers more : List ℕ) → KnowsNumbers self.old.reader self.old.certainties numbers
            → result ≡ true → KnowsNumbers self.new.reader self.new.certainties more }
        ensures knows_left { (numbers : List ℕ) → KnowsNumbers self.old.reader self.old.certainties numbers
            → result ≡ false → KnowsNumbers self.new.reader self.new.certainties numbers }
    {
        if self.reader.is_awake() {
            return false;
        }
        self.push_eight(&tones_of(windows))
    }

    /// The same of windows that are decided.
    fn push_eight(&mut self, tones: &[Tone; 8]) -> bool
        ensures taken { (before : List Tone) → LaneStandsFor self.old before → result ≡ true
            → LaneStandsFor self.new (before ++ tones.now) }
        ensures quiet { (before : List Tone) → LaneStandsFor self.old before → result ≡ true
            → NothingEndsInTones before tones.now }
        ensures left { (before : List Tone) → LaneStandsFor self.old before → result ≡ false
            → LaneStandsFor self.new before }
        ensures certainties { self.new.certainties ≡ self.old.certainties }
        ensures awake { self.new.reader.awake ≡ self.old.reader.awake }
        ensures reader { result ≡ false → self.new.reader ≡ self.old.reader }
    {
        let octet = octet_of(self.line.tone(), tones);
        match self.reader.quietly_after(octet) {
            None => false,
            Some(register) => {
                if !self.plain.push_eight(self.reader.register(), octet) {
                    return false;
                }
                self.reader.rest_at(register);
                self.line.step(tones[7]);
                true
            }
        }
    }

    /// The octets of the plain frame that the last tone ended.
    pub fn octets(&self) -> &[u8]
        requires { (octets : List ℕ) × IsFrame octets × HoldsFrame self.now.deframer octets }
        ensures { (octets : List ℕ) → IsFrame octets → HoldsFrame self.now.deframer octets
            → result.now ≡ octets }
    {
        self.plain.octets()
    }

    /// The frame of the block of a tag that the last tone ended. A block that is too far from a codeword as it came is read
    /// with its least sure octets unknown.
    pub fn block(&self, tag: u8) -> Option<BlockFrame>
        requires { IsTag tag }
        ensures frame { (tones : List Tone) → (numbers : List ℕ) → LaneStandsFor self.now tones
            → KnowsNumbers self.now.reader self.now.certainties numbers
            → IfSome result (λ found. EndsUnsureBlock (bits_of tones) numbers tag found.octets.items found.over) }
        ensures none { (tones : List Tone) → (numbers : List ℕ) → LaneStandsFor self.now tones
            → KnowsNumbers self.now.reader self.now.certainties numbers
            → IfNone result ((frame : List ℕ) → (over : ℕ)
            → ¬ EndsUnsureBlock (bits_of tones) numbers tag frame over) }
    {
        self.reader.frame(tag, &self.certainties)
    }

    /// True only if the last tone ended no block.
    pub fn is_idle(&self) -> bool
        ensures { (tones : List Tone) → (numbers : List ℕ) → LaneStandsFor self.now tones → result ≡ true
            → (tag : ℕ) → (frame : List ℕ) → (over : ℕ)
            → ¬ EndsUnsureBlock (bits_of tones) numbers tag frame over }
    {
        self.reader.is_idle()
    }

    /// True if a block is coming in with the last tone, or was over at most 64 bits ago.
    pub(crate) fn is_block_coming(&self) -> bool
        ensures { (tones : List Tone) → LaneStandsFor self.now tones
            → (IsTrue result ↔ IsBlockComing (bits_of tones)) }
    {
        self.reader.is_block_coming()
    }
}

/// The eight lanes, which have taken nothing.
pub fn new_lanes(alloc: Global) -> Result<Vec<Lane>, OutOfMemory>
    ensures count { IfOk result (λ lanes. length lanes.items ≡ 8) }
    ensures fresh { IfOk result (λ lanes. All IsFresh lanes.items) }
{
    let mut lanes = Vec::new(alloc);
    for _ in 0..LANES {
        lanes.push(Lane::new())?;
    }
    Ok(lanes)
}

/// Whether a block is coming in with the last bit of some lane, or was over at most 64 bits ago.
pub(crate) fn is_some_block_coming(lanes: &[Lane]) -> bool
    requires { length lanes.now ≡ 8 }
    ensures { (x : List ℤ) → LanesStandFor lanes.now x → (IsTrue result ↔ HearsBlock x) }
{
    for lane in lanes {
        if lane.is_block_coming() {
            return true;
        }
    }
    false
}
