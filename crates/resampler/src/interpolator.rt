//! From 9600 samples a second to 48,000: a sample in, five out.

ghost use Rattle.std.specs.Prelude.{◌≡◌, ◌≤◌, ℤ, pos, ◌*ℤ◌, List, [], ◌∷◌, ◌++◌, length, unsigned_abs};
ghost use Rattle.resampler.specs.Taps.{weighted_sum, sample_of_sum};
ghost use Rattle.resampler.specs.Filtered.{zeros, interpolated};
ghost use Rattle.resampler.specs.Held.{last_window, HasStuffed};

use crate::window::{Window, sample_of_sum};
use std::marker::Model;

/// Four of five samples that the filter takes are zeros, so what it gives is a fifth of the level.
const GAIN: i32 = 5;

/// Samples at 9600 a second in, five times as many at 48,000 out: `new`, then `push` for each sample. They come fifteen
/// places late, so that none asks for a sample to come.
#[derive(Debug, Drop)]
pub struct Interpolator {
    window: Window,
}

impl Model for Interpolator {
    ghost use Rattle.std.specs.Prelude.{ℤ, List};

    ghost Value = { List ℤ };

    ghost view = { λ s. s.window };
}

impl Interpolator {
    /// An interpolator that has taken nothing.
    pub fn new() -> Interpolator
        ensures { HasStuffed result [] }
    {
        Interpolator {
            window: Window::new(),
        }
    }

    /// Takes a sample, and gives five.
    pub fn push(&mut self, sample: i16) -> [i16; 5]
        ensures stands_for { (x : List ℤ) → HasStuffed self.old x → HasStuffed self.new (x ++ sample ∷ []) }
        ensures given { (x : List ℤ) → HasStuffed self.old x
            → interpolated (x ++ sample ∷ []) ≡ interpolated x ++ result }
    {
        let first = self.step(sample);
        let second = self.step(0);
        let third = self.step(0);
        let fourth = self.step(0);
        let fifth = self.step(0);
        [first, second, third, fourth, fifth]
    }

    /// Takes one sample of those among which zeros are stuffed, and gives one.
    fn step(&mut self, sample: i16) -> i16
        ensures window { (x : List ℤ) → self.old ≡ last_window x → self.new ≡ last_window (x ++ sample ∷ []) }
        ensures given { (x : List ℤ) → self.old ≡ last_window x
            → result ≡ sample_of_sum (pos 5 *ℤ weighted_sum (zeros 30 ++ (x ++ sample ∷ [])) (length x)) }
    {
        self.window.push(sample);
        sample_of_sum(fivefold(self.window.sum()))
    }
}

/// Five times a sum of the window.
fn fivefold(sum: i32) -> i32
    requires { unsigned_abs sum ≤ 45744128 }
    ensures { result ≡ pos 5 *ℤ sum }
{
    GAIN * sum
}
