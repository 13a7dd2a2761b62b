//! The bits that samples have at one offset of the windows.

ghost use Rattle.std.specs.Prelude.{◌≡◌, ◌+◌, ◌<◌, ◌^◌, ◌↔◌, List, ℤ, [], ◌∷◌, ◌++◌, length, IsSome};
ghost use Rattle.std.specs.Option.{option_to_list};
ghost use Rattle.hf_modem.specs.Windows.{EndsWindow, bits};
ghost use Rattle.hf_modem.specs.Held.{SlicerStandsFor};

use crate::decision::hf_decide;
use crate::recent::Recent;
use crate::window::ends_window;
use nrzi_bits::NrziIn;
use std::marker::Model;

/// The bits of one offset. It stands for all samples so far, keeps the last 32 alone, and gives one bit for each whole
/// window.
#[derive(Debug, Drop)]
pub struct HfSlicer {
    offset: u8,
    position: u64,
    recent: Recent,
    line: NrziIn,
}

impl Model for HfSlicer {
    ghost use Rattle.std.specs.Prelude.{◌<◌};
    ghost use Rattle.hf_modem.specs.Held.{HeldSlicer};

    ghost Value = { HeldSlicer };

    ghost view = { λ s. record { offset = s.offset; position = s.position; recent = s.recent; before = s.line } };

    ghost invariant = { λ s. s.offset < 32 };
}

impl HfSlicer {
    /// A slicer at position 0, whose windows begin at the samples `offset`, `offset + 32` and so on.
    pub fn new(offset: u8) -> HfSlicer
        requires { offset < 32 }
        ensures stands_for { SlicerStandsFor result [] }
        ensures offset { result.offset ≡ offset }
        ensures position { result.position ≡ 0 }
    {
        HfSlicer {
            offset,
            position: 0,
            recent: Recent::new(),
            line: NrziIn::new(),
        }
    }

    /// Takes one sample and gives the bit of the window that ends with it, or `None` if no window of this offset
    /// does.
    pub fn push(&mut self, sample: i16) -> Option<bool>
        requires { self.old.position < 2 ^ 48 }
        ensures stands_for { (x : List ℤ) → SlicerStandsFor self.old x → SlicerStandsFor self.new (x ++ sample ∷ []) }
        ensures bits { (x : List ℤ) → SlicerStandsFor self.old x
            → bits self.old.offset (x ++ sample ∷ []) ≡ bits self.old.offset x ++ option_to_list result }
        ensures ends { (x : List ℤ) → SlicerStandsFor self.old x
            → (IsSome result ↔ EndsWindow self.old.offset (x ++ sample ∷ [])) }
        ensures offset { self.new.offset ≡ self.old.offset }
        ensures position { self.new.position ≡ self.old.position + 1 }
    {
        self.recent.push(sample);
        self.position += 1;
        if !ends_window(self.offset, self.position) {
            return None;
        }
        Some(self.line.step(hf_decide(self.recent.window())))
    }

    /// How many samples were pushed.
    pub fn position(&self) -> u64
        ensures value { result ≡ self.now.position }
        ensures count { (x : List ℤ) → SlicerStandsFor self.now x → result ≡ length x }
    {
        self.position
    }
}
