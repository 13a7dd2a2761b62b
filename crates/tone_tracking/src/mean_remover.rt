//! Samples without their mean: what an offset of a sound card or a hum adds to the tones is taken out.
//!
//! Mark runs one whole cycle in a window of eight samples, and space 11/6. So a constant gives nothing as mark, but a part
//! of it as space: if it is louder than the tones, every window is space. A mean over 32 samples, four bits, takes out
//! constants and what changes slowly, and of both tones so little that it is not missed.

ghost use Rattle.std.specs.Prelude.{◌≡◌, ◌≤◌, ℤ, pos, ◌-ℤ◌, ◌*ℤ◌, List, [], ◌∷◌, ◌++◌, IfSome, drop};
ghost use Rattle.std.specs.Prelude.{◌-◌, ◌<◌, ◌+ℤ◌, IsNone, IsSome, unsigned_abs};
ghost use Rattle.std.specs.Int.{int_div_euclid};
ghost use Rattle.std.specs.Option.{option_to_list};
ghost use Rattle.tone_tracking.specs.WithoutMean.{without_mean};
ghost use Rattle.tone_tracking.specs.HeldMean.{StandsFor};

use std::marker::Model;

/// How many samples past its own place the mean of a sample asks for.
pub(crate) const AHEAD: u8 = 15;

/// Takes samples one by one, and gives each without its mean, in quarters, as soon as fifteen more have come. It keeps
/// the last 32 in a ring, where the oldest of them stands, and their sum.
#[derive(Debug, Drop)]
pub struct MeanRemover {
    samples: [i16; 32],
    oldest: u8,
    sum: i32,
    left: u8,
}

impl Model for MeanRemover {
    ghost use Rattle.std.specs.Prelude.{◌<◌};
    ghost use Rattle.tone_tracking.specs.HeldMean.{HeldMean, IsSumOf, from_oldest};

    ghost Value = { HeldMean };

    ghost view = { λ s. record { samples = from_oldest s.oldest s.samples; left = s.left } };

    ghost invariant = { λ s. (s.oldest < 32) × IsSumOf (from_oldest s.oldest s.samples) s.sum };
}

impl MeanRemover {
    /// A remover that has taken nothing.
    pub fn new() -> MeanRemover
        ensures { StandsFor result [] }
    {
        MeanRemover {
            samples: [0; 32],
            oldest: 0,
            sum: 0,
            left: AHEAD,
        }
    }

    /// Takes a sample, and gives the one that it settles: none as long as fewer than sixteen have come.
    pub fn push(&mut self, sample: i16) -> Option<i32>
        ensures stands_for { (x : List ℤ) → StandsFor self.old x → StandsFor self.new (x ++ sample ∷ []) }
        ensures settled { (x : List ℤ) → StandsFor self.old x
            → without_mean (x ++ sample ∷ []) ≡ without_mean x ++ option_to_list result }
        ensures bound { IfSome result (λ level. unsigned_abs level ≤ 262144) }
        ensures left { self.new.left ≡ self.old.left - 1 }
        ensures some { IsSome result → self.old.left ≡ 0 }
        ensures none { IsNone result → 0 < self.old.left }
    {
        self.take(sample);
        if self.left > 0 {
            self.left -= 1;
            return None;
        }
        let middle = usize::from((self.oldest + 16) % 32);
        Some(less_mean(self.samples[middle], self.sum))
    }

    /// Takes a sample in place of the oldest of the last 32.
    fn take(&mut self, sample: i16)
        ensures samples { self.new.samples ≡ drop 1 self.old.samples ++ sample ∷ [] }
        ensures left { self.new.left ≡ self.old.left }
    {
        let oldest = usize::from(self.oldest);
        self.sum = slid_sum(self.sum, self.samples[oldest], sample);
        self.samples[oldest] = sample;
        self.oldest = (self.oldest + 1) % 32;
    }
}

/// A sum with a sample more and the first one less.
pub(crate) fn slid_sum(sum: i32, first: i16, more: i16) -> i32
    requires { unsigned_abs sum ≤ 1048576 }
    ensures { result ≡ (sum -ℤ first) +ℤ more }
{
    sum - i32::from(first) + i32::from(more)
}

/// Four times a sample, less four times the mean of 32 that have a sum, rounded down as a shift does.
pub(crate) fn less_mean(sample: i16, sum: i32) -> i32
    requires { unsigned_abs sum ≤ 1048576 }
    ensures value { result ≡ pos 4 *ℤ sample -ℤ int_div_euclid sum (pos 8) }
    ensures bound { unsigned_abs result ≤ 262144 }
{
    4 * i32::from(sample) - (sum >> 3)
}
