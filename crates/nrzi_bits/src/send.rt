//! Bits as the tones of a line, by the rule of inverted NRZ.

ghost use Rattle.std.specs.Prelude.{◌≡◌, List, [], ◌∷◌, ◌++◌, Bool};
ghost use Rattle.tone_table.specs.declared.tone.Tone.{Tone};
ghost use Rattle.tone_table.specs.declared.tone.Tone.TheVariants.{Mark};
ghost use Rattle.nrzi_bits.specs.Line.{line, last_tone, sent_tone};

use std::marker::Model;
use tone_table::Tone;

/// The sending side of the rule. It stands for the bits sent so far and is seen as the tone at
/// which the line stands.
#[derive(Debug, Drop)]
pub struct NrziOut {
    before: Tone,
}

impl Model for NrziOut {
    ghost Value = { Tone };

    ghost view = { λ s. s.before };
}

impl NrziOut {
    /// No bit was sent, and the line stands at mark.
    pub fn new() -> NrziOut
        ensures tone { result ≡ Mark }
        ensures stands_for { result ≡ last_tone (line []) }
    {
        NrziOut { before: Tone::Mark }
    }

    /// The tone of the next bit: the line's tone for a 1, the other one for a 0.
    pub fn step(&mut self, bit: bool) -> Tone
        ensures tone { result ≡ sent_tone self.old bit }
        ensures now { self.new ≡ result }
        ensures stands_for { (bits : List Bool) → self.old ≡ last_tone (line bits)
            → self.new ≡ last_tone (line (bits ++ bit ∷ [])) }
        ensures line { (bits : List Bool) → self.old ≡ last_tone (line bits)
            → line (bits ++ bit ∷ []) ≡ line bits ++ result ∷ [] }
    {
        self.before = sent(self.before, bit);
        self.before
    }
}

/// The tone of a bit after a tone.
fn sent(before: Tone, bit: bool) -> Tone
    ensures { result ≡ sent_tone before bit }
{
    match (before, bit) {
        (Tone::Mark, true) | (Tone::Space, false) => Tone::Mark,
        (Tone::Mark, false) | (Tone::Space, true) => Tone::Space,
    }
}
