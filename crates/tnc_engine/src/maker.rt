//! What makes a text of octets that come piece by piece.
//!
//! `take` is called for the octets in order, until it has taken all or answers a fault, and then `finish` if there was
//! none. A maker knows neither the input nor the output.
ghost use Rattle.std.specs.Prelude.{◌≡◌, ◌≤◌, ◌<◌, ◌+◌, ℕ, List, length, IfOk};
ghost use Rattle.tnc_forms.specs.Reading.{input_limit};
ghost use Rattle.tnc_engine.specs.Making.{Making, Finishes, IsFront, Takes};

use tnc_base::OutOfMemory;
use tnc_forms::InputFault;

/// What became of octets that a maker was given.
#[derive(Clone, Copy, Debug, PartialEq, Eq)]
pub enum Taken {
    /// So many of them were taken from their front.
    Front(usize),
    /// The input is refused, whatever follows. The maker is of no more use.
    Bad(InputFault),
}

/// Octets in, the text that they settle out.
pub trait Maker {
    /// What the maker is told before the first octet.
    type Words;

    /// What is made of an input by these words.
    ghost making: { Self.Words → Making };

    /// By these words, these octets were taken.
    ghost holds: { Self → Self.Words → List ℕ → Type 0 };

    /// Takes the next octets or a first part of them, and puts the text that they settle in place of `text`. If memory
    /// is wanted, the maker is of no more use.
    fn take(&mut self, octets: &[u8], text: &mut Vec<u8>) -> Result<Taken, OutOfMemory>
        requires some { 0 < length octets.now }
        requires held { (words : Self.Words) × (before : List ℕ) × holds self.old words before
            × (length before + length octets.now ≤ input_limit) }
        ensures front { IfOk result (IsFront octets.now) }
        ensures takes { (words : Self.Words) → (before : List ℕ) → holds self.old words before
            → IfOk result (Takes (making words) (holds self.new words) before octets.now text.new.items) };

    /// Puts the rest of the text in place of `text`: the input has ended. Answers what is wrong with it.
    fn finish(&mut self, text: &mut Vec<u8>) -> Result<Option<InputFault>, OutOfMemory>
        requires held { (words : Self.Words) × (before : List ℕ) × holds self.old words before
            × (length before ≤ input_limit) }
        ensures finishes { (words : Self.Words) → (octets : List ℕ) → holds self.old words octets
            → IfOk result (Finishes (making words) octets text.new.items) };
}
