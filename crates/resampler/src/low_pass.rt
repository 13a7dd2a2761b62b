//! The filter at 48,000 samples a second: a sample in, and the filtered one fifteen places before it out.

ghost use Rattle.std.specs.Prelude.{◌≡◌, ◌≤◌, ℤ, List, [], ◌∷◌, ◌++◌, length, take};
ghost use Rattle.std.specs.Option.{option_to_list};
ghost use Rattle.resampler.specs.Filtered.{filtered, settled};
ghost use Rattle.resampler.specs.Held.{StandsFor};

use crate::feeding::feed_low_pass;
use crate::window::{Window, sample_of_sum};
use std::marker::Model;

/// How many samples past its own place a filtered sample asks for.
pub(crate) const AHEAD: u8 = 15;

/// A low-pass filter for samples at 48,000 a second: `new`, then `push` for each sample or `feed` for each block, then
/// `finish`. It keeps the last 31 samples, and gives as many as it takes.
#[derive(Debug, Drop)]
pub struct LowPass {
    window: Window,
    left: u8,
}

impl Model for LowPass {
    ghost use Rattle.resampler.specs.Held.{HeldFilter};

    ghost Value = { HeldFilter };

    ghost view = { λ s. record { window = s.window; left = s.left } };
}

impl LowPass {
    /// A filter that has taken nothing.
    pub fn new() -> LowPass
        ensures { StandsFor result [] }
    {
        LowPass {
            window: Window::new(),
            left: AHEAD,
        }
    }

    /// Takes a sample, and gives the filtered one that it settles: none as long as fewer than sixteen have come.
    pub fn push(&mut self, sample: i16) -> Option<i16>
        ensures stands_for { (x : List ℤ) → StandsFor self.old x → StandsFor self.new (x ++ sample ∷ []) }
        ensures settled { (x : List ℤ) → StandsFor self.old x
            → settled (x ++ sample ∷ []) ≡ settled x ++ option_to_list result }
    {
        self.window.push(sample);
        if self.left > 0 {
            self.left -= 1;
            return None;
        }
        Some(sample_of_sum(self.window.sum()))
    }

    /// Takes a block, puts the filtered samples that it settles at the front of `out`, and tells how many they are.
    pub fn feed(&mut self, block: &[i16], out: &mut [i16]) -> usize
        requires { length block.now ≤ length out.old }
        ensures stands_for { (x : List ℤ) → StandsFor self.old x → StandsFor self.new (x ++ block.now) }
        ensures settled { (x : List ℤ) → StandsFor self.old x
            → settled (x ++ block.now) ≡ settled x ++ take result out.new }
        ensures count { result ≤ length block.now }
        ensures room { length out.new ≡ length out.old }
    {
        feed_low_pass(self, block, out)
    }

    /// Puts the rest of the filtered samples at the front of `out`, as if zeros followed, and tells how many they are:
    /// the samples have ended.
    pub fn finish(&mut self, out: &mut [i16; 15]) -> usize
        ensures rest { (x : List ℤ) → StandsFor self.old x → filtered x ≡ settled x ++ take result out.new }
        ensures count { result ≤ 15 }
    {
        self.feed(&[0; 15], out)
    }
}
