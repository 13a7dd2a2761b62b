//! From the samples that come to those of the modem.
ghost use Rattle.std.specs.Prelude.{◌≡◌, ◌≤◌, ℤ, List, [], ◌∷◌, ◌++◌, take};
ghost use Rattle.std.specs.Option.{option_to_list};
ghost use Rattle.sound_rate.specs.declared.rate.Rate.{Rate};
ghost use Rattle.sound_rate.specs.Rates.{received, settled_at};
ghost use Rattle.sound_rate.specs.HeldRates.{HasReceived};

use crate::rate::Rate;
use resampler::Decimator;

/// Samples at a rate in, those of the modem out: `new`, then `push` for each sample, then `finish`.
#[derive(Debug, Drop)]
pub enum Incoming {
    /// They are those of the modem.
    Narrow,
    /// They are five times as many.
    Wide(Decimator),
}

impl Incoming {
    /// One that has taken nothing.
    pub fn new(rate: Rate) -> Incoming
        ensures { HasReceived rate result [] }
    {
        match rate {
            Rate::Narrow => Incoming::Narrow,
            Rate::Wide => Incoming::Wide(Decimator::new()),
        }
    }

    /// Takes a sample, and gives the one of the modem that it settles, if it settles one.
    pub fn push(&mut self, sample: i16) -> Option<i16>
        ensures stands_for { (rate : Rate) (x : List ℤ) → HasReceived rate self.old x
            → HasReceived rate self.new (x ++ sample ∷ []) }
        ensures settled { (rate : Rate) (x : List ℤ) → HasReceived rate self.old x
            → settled_at rate (x ++ sample ∷ []) ≡ settled_at rate x ++ option_to_list result }
    {
        match self {
            Incoming::Narrow => Some(sample),
            Incoming::Wide(decimator) => decimator.push(sample),
        }
    }

    /// Puts the rest of the modem's samples at the front of `out`, and tells how many they are: the samples have ended.
    pub fn finish(&mut self, out: &mut [i16; 15]) -> usize
        ensures rest { (rate : Rate) (x : List ℤ) → HasReceived rate self.old x
            → received rate x ≡ settled_at rate x ++ take result out.new }
        ensures count { result ≤ 15 }
    {
        match self {
            Incoming::Narrow => 0,
            Incoming::Wide(decimator) => decimator.finish(out),
        }
    }
}
