//! The bits that samples have at one offset of the windows.

ghost use Rattle.std.specs.Prelude.{◌≡◌, ℕ, ◌+◌, ◌%◌, ◌<◌, ◌≤◌, ◌^◌, ◌↔◌, List, ℤ, [], ◌∷◌, ◌++◌, length, IsSome};
ghost use Rattle.std.specs.Prelude.{IfSome, option_map};
ghost use Rattle.std.specs.Option.{option_to_list};
ghost use Rattle.offset_slicers.specs.Decided.{IsDecidedAs};
ghost use Rattle.offset_slicers.specs.Windows.{EndsWindow, bits, next_window};
ghost use Rattle.offset_slicers.specs.Held.{StandsFor, offset_from};

use crate::decision::Decision;
use nrzi_bits::NrziIn;
use std::marker::Model;

/// A bit, its window, and the decision on that.
#[derive(Clone, Copy, PartialEq, Eq, Debug)]
pub struct SlicedBit {
    pub bit: bool,
    pub window: [i16; 8],
    pub decision: Decision,
}

/// The bits of one offset in a stretch of samples, the first of which begins at position 0. It stands for all samples
/// of the stretch so far, keeps those of the window under way alone, and gives one bit for each whole window.
#[derive(Debug, Drop)]
pub struct Slicer {
    offset: u64,
    first: u64,
    position: u64,
    window: [i16; 8],
    line: NrziIn,
}

impl Model for Slicer {
    ghost use Rattle.std.specs.Prelude.{◌<◌};
    ghost use Rattle.offset_slicers.specs.Held.{Held, held_of};

    ghost Value = { Held };

    ghost view = { λ s. held_of s.offset s.first s.position s.window s.line };

    ghost invariant = { λ s. s.offset < 8 };
}

impl Slicer {
    /// A slicer at position 0, whose windows begin at the samples `offset`, `offset + 8` and so on.
    pub fn new(offset: u8) -> Slicer
        requires { offset < 8 }
        ensures stands_for { StandsFor result 0 [] }
        ensures offset { result.offset ≡ offset }
        ensures position { result.position ≡ 0 }
    {
        Slicer {
            offset: u64::from(offset),
            first: u64::from(offset),
            position: 0,
            window: [0; 8],
            line: NrziIn::new(),
        }
    }

    /// Takes one sample and gives the bit of the window that ends with it, or none if no window
    /// of this offset does.
    pub fn push(&mut self, sample: i16) -> Option<bool>
        requires { self.old.position < 2 ^ 48 }
        ensures stands_for { (begin : ℕ) (x : List ℤ) → StandsFor self.old begin x
            → StandsFor self.new begin (x ++ sample ∷ []) }
        ensures bits { (begin : ℕ) (x : List ℤ) → StandsFor self.old begin x
            → bits (offset_from self.old.offset begin) (x ++ sample ∷ [])
            ≡ bits (offset_from self.old.offset begin) x ++ option_to_list result }
        ensures ends { (begin : ℕ) (x : List ℤ) → StandsFor self.old begin x
            → (IsSome result ↔ EndsWindow (offset_from self.old.offset begin) (x ++ sample ∷ [])) }
        ensures offset { self.new.offset ≡ self.old.offset }
        ensures position { self.new.position ≡ self.old.position + 1 }
    {
        match self.slice(sample) {
            None => None,
            Some(sliced) => Some(sliced.bit),
        }
    }

    /// The same, with the window and the decision on it beside the bit.
    pub fn slice(&mut self, sample: i16) -> Option<SlicedBit>
        requires { self.old.position < 2 ^ 48 }
        ensures stands_for { (begin : ℕ) (x : List ℤ) → StandsFor self.old begin x
            → StandsFor self.new begin (x ++ sample ∷ []) }
        ensures bits { (begin : ℕ) (x : List ℤ) → StandsFor self.old begin x
            → bits (offset_from self.old.offset begin) (x ++ sample ∷ [])
            ≡ bits (offset_from self.old.offset begin) x ++ option_to_list (option_map (λ sliced. sliced.bit) result) }
        ensures ends { (begin : ℕ) (x : List ℤ) → StandsFor self.old begin x
            → (IsSome result ↔ EndsWindow (offset_from self.old.offset begin) (x ++ sample ∷ [])) }
        ensures window { (begin : ℕ) (x : List ℤ) → StandsFor self.old begin x
            → IfSome result (λ sliced. sliced.window
            ≡ next_window (offset_from self.old.offset begin) x (x ++ sample ∷ [])) }
        ensures decided { IfSome result (λ sliced. IsDecidedAs sliced.window sliced.decision) }
        ensures offset { self.new.offset ≡ self.old.offset }
        ensures position { self.new.position ≡ self.old.position + 1 }
    {
        let at = self.position;
        self.position = at + 1;
        if at < self.first {
            return None;
        }
        let place = ((at - self.first) % 8) as usize;
        self.window[place] = sample;
        if place < 7 {
            return None;
        }
        let decision = Decision::of(&self.window);
        Some(SlicedBit {
            bit: self.line.step(decision.tone),
            window: self.window,
            decision,
        })
    }

    /// Begins a new stretch at `to`, as if no sample had come before: the line stands at mark, and the next window is
    /// the first of this offset that begins at `to` or later.
    pub fn skip(&mut self, to: u64)
        requires { (self.old.position ≤ to) × (to ≤ 2 ^ 48) }
        ensures stands_for { StandsFor self.new to [] }
        ensures offset { self.new.offset ≡ self.old.offset }
        ensures position { self.new.position ≡ to }
        ensures first { (self.new.first % 8 ≡ self.new.offset) × (to ≤ self.new.first) × (self.new.first < to + 8) }
    {
        self.position = to;
        self.first = to + (8 + self.offset - to % 8) % 8;
        self.line = NrziIn::new();
    }

    /// How many samples were pushed or skipped.
    pub fn position(&self) -> u64
        ensures value { result ≡ self.now.position }
        ensures count { (begin : ℕ) (x : List ℤ) → StandsFor self.now begin x → result ≡ begin + length x }
    {
        self.position
    }
}
