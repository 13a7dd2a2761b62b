//! Bits out of the tones of a line, by the rule of inverted NRZ.

ghost use Rattle.std.specs.Prelude.{◌≡◌, ◌↔◌, List, [], ◌∷◌, ◌++◌, IsTrue};
ghost use Rattle.tone_table.specs.declared.tone.Tone.{Tone};
ghost use Rattle.tone_table.specs.declared.tone.Tone.TheVariants.{Mark};
ghost use Rattle.nrzi_bits.specs.Line.{bits_of, last_tone};

use std::marker::Model;
use tone_table::Tone;

/// The receiving side of the rule. It stands for the tones heard so far and is seen as the last of
/// them, or as mark before the first.
#[derive(Debug, Drop)]
pub struct NrziIn {
    before: Tone,
}

impl Model for NrziIn {
    ghost Value = { Tone };

    ghost view = { λ s. s.before };
}

impl NrziIn {
    /// No tone was heard, and the line stands at mark.
    pub fn new() -> NrziIn
        ensures tone { result ≡ Mark }
        ensures stands_for { result ≡ last_tone [] }
    {
        NrziIn { before: Tone::Mark }
    }

    /// The last of the tones, or mark before the first.
    pub fn tone(&self) -> Tone
        ensures { result ≡ self.now }
    {
        self.before
    }

    /// Takes the next tone. The bit is 1 exactly when it equals the tone before.
    pub fn step(&mut self, tone: Tone) -> bool
        ensures bit { IsTrue result ↔ (self.old ≡ tone) }
        ensures tone { self.new ≡ tone }
        ensures stands_for { (tones : List Tone) → self.old ≡ last_tone tones
            → self.new ≡ last_tone (tones ++ tone ∷ []) }
        ensures bits { (tones : List Tone) → self.old ≡ last_tone tones
            → bits_of (tones ++ tone ∷ []) ≡ bits_of tones ++ result ∷ [] }
    {
        let bit = self.before == tone;
        self.before = tone;
        bit
    }
}
