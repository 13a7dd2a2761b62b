//! A lane that takes tones: the rule of the line and the deframer of its bits.

ghost use Rattle.std.specs.Prelude.{◌≡◌, ◌<◌, ◌≤◌, ◌↔◌, ℕ, ◌+◌, List, [], ◌∷◌, ◌++◌, length, take, true, false, IsTrue};
ghost use Rattle.tone_table.specs.declared.tone.Tone.{Tone};
ghost use Rattle.nrzi_bits.specs.Line.{bits_of};
ghost use Rattle.hdlc_framer.specs.Carrier.{HoldsCarrier};
ghost use Rattle.hdlc_framer.specs.Frames.{IsFrame, EndsFrame};
ghost use Rattle.hdlc_framer.specs.Held.{HoldsFrame, flags_asked};
ghost use Rattle.slicer_bank.specs.ToneLanes.{ToneLaneStandsFor};

use crate::eight::octet_of;
use hdlc_framer::{Deframer, Event};
use nrzi_bits::NrziIn;
use std::marker::Model;
use tone_table::Tone;

/// The rule of inverted NRZ for the tones of one lane, and the deframer of the bits that it gives.
#[derive(Drop)]
pub struct ToneLane {
    line: NrziIn,
    deframer: Deframer,
}

impl Model for ToneLane {
    ghost use Rattle.slicer_bank.specs.ToneLanes.{HeldToneLane};

    ghost Value = { HeldToneLane };

    ghost view = { λ s. record { before = s.line; deframer = s.deframer } };
}

impl ToneLane {
    /// A lane that has taken nothing, and listens for one flag.
    pub fn new() -> ToneLane
        ensures stands_for { ToneLaneStandsFor result [] }
        ensures asks { flags_asked result.deframer ≡ 1 }
    {
        ToneLane::listening(1)
    }

    /// A lane that has taken nothing, and listens for so many flags in a row.
    pub fn listening(flags: u8) -> ToneLane
        requires { (1 ≤ flags) × (flags ≤ 8) }
        ensures stands_for { ToneLaneStandsFor result [] }
        ensures asks { flags_asked result.deframer ≡ flags }
    {
        ToneLane {
            line: NrziIn::new(),
            deframer: Deframer::listening(flags),
        }
    }

    /// Takes the next tone, and says whether a frame ends with it.
    pub fn push(&mut self, tone: Tone) -> bool
        ensures stands_for { (tones : List Tone) → ToneLaneStandsFor self.old tones
            → ToneLaneStandsFor self.new (tones ++ tone ∷ []) }
        ensures holds { result ≡ true → (octets : List ℕ) × IsFrame octets × HoldsFrame self.new.deframer octets }
        ensures heard { (tones : List Tone) → ToneLaneStandsFor self.old tones → result ≡ true
            → (octets : List ℕ) × EndsFrame (bits_of (tones ++ tone ∷ [])) octets }
        ensures frame { (tones : List Tone) (octets : List ℕ) → ToneLaneStandsFor self.old tones
            → EndsFrame (bits_of (tones ++ tone ∷ [])) octets → (result ≡ true) × HoldsFrame self.new.deframer octets }
        ensures asks { flags_asked self.new.deframer ≡ flags_asked self.old.deframer }
    {
        let bit = self.line.step(tone);
        self.deframer.push(bit) == Event::Frame
    }

    /// Takes the next eight tones at once, if no flag and no abort ends with any of their bits and none is an inserted 0,
    /// as is so of most. Otherwise it takes none of them, and they have to be pushed one by one.
    pub fn push_eight(&mut self, eight: &[Tone; 8]) -> bool
        ensures taken { (tones : List Tone) → ToneLaneStandsFor self.old tones → result ≡ true
            → ToneLaneStandsFor self.new (tones ++ eight.now) }
        ensures quiet { (tones : List Tone) (k : ℕ) (octets : List ℕ) → ToneLaneStandsFor self.old tones → result ≡ true
            → k < 8 → ¬ EndsFrame (bits_of (tones ++ take (k + 1) eight.now)) octets }
        ensures left { (tones : List Tone) → ToneLaneStandsFor self.old tones → result ≡ false
            → ToneLaneStandsFor self.new tones }
        ensures asks { flags_asked self.new.deframer ≡ flags_asked self.old.deframer }
    {
        let octet = octet_of(self.line.tone(), eight);
        if !self.deframer.push_octet(octet) {
            return false;
        }
        self.line.step(eight[7]);
        true
    }

    /// The octets of the frame that the last tone ended, without its check sequence.
    pub fn octets(&self) -> &[u8]
        requires { (octets : List ℕ) × IsFrame octets × HoldsFrame self.now.deframer octets }
        ensures { (octets : List ℕ) → IsFrame octets → HoldsFrame self.now.deframer octets → result.now ≡ octets }
    {
        self.deframer.octets()
    }

    /// Whether the bits hold a carrier of as many flags as the lane listens for.
    pub fn busy(&self) -> bool
        ensures { (tones : List Tone) → ToneLaneStandsFor self.now tones
            → (IsTrue result ↔ HoldsCarrier (flags_asked self.now.deframer) (bits_of tones)) }
    {
        self.deframer.busy()
    }
}
