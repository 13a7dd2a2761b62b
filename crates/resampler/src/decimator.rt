//! From 48,000 samples a second to 9600: filtered, and each fifth of these.

ghost use Rattle.std.specs.Prelude.{◌≡◌, ◌≤◌, ℤ, List, [], ◌∷◌, ◌++◌, length, take};
ghost use Rattle.std.specs.Option.{option_to_list};
ghost use Rattle.resampler.specs.Filtered.{decimated, decimated_settled};
ghost use Rattle.resampler.specs.Held.{HasDecimated};

use crate::feeding::feed_decimator;
use crate::line::{filter_each_fifth, line_of};
use crate::low_pass::AHEAD;
use crate::window::{Window, sample_of_sum, window_at};
use std::marker::Model;

/// The samples between two that are given.
const BETWEEN: u8 = 4;

/// Samples at 48,000 a second in, at 9600 out: `new`, then `push` for each sample or `feed` for each block, then
/// `finish`. It keeps the last 31 samples, and gives one for each fifth that it takes, from the first on.
#[derive(Debug, Drop)]
pub struct Decimator {
    window: Window,
    left: u8,
}

impl Model for Decimator {
    ghost use Rattle.resampler.specs.Held.{HeldFilter};

    ghost Value = { HeldFilter };

    ghost view = { λ s. record { window = s.window; left = s.left } };
}

impl Decimator {
    /// A decimator that has taken nothing.
    pub fn new() -> Decimator
        ensures { HasDecimated result [] }
    {
        Decimator {
            window: Window::new(),
            left: AHEAD,
        }
    }

    /// Takes a sample, and gives the one at 9600 a second that it settles, if it settles one.
    pub fn push(&mut self, sample: i16) -> Option<i16>
        ensures stands_for { (x : List ℤ) → HasDecimated self.old x → HasDecimated self.new (x ++ sample ∷ []) }
        ensures settled { (x : List ℤ) → HasDecimated self.old x
            → decimated_settled (x ++ sample ∷ []) ≡ decimated_settled x ++ option_to_list result }
    {
        self.window.push(sample);
        if self.left > 0 {
            self.left -= 1;
            return None;
        }
        self.left = BETWEEN;
        Some(sample_of_sum(self.window.sum()))
    }

    /// Takes a block, puts the samples at 9600 a second that it settles at the front of `out`, and tells how many they
    /// are.
    pub fn feed(&mut self, block: &[i16], out: &mut [i16]) -> usize
        requires { length block.now ≤ length out.old }
        ensures stands_for { (x : List ℤ) → HasDecimated self.old x → HasDecimated self.new (x ++ block.now) }
        ensures settled { (x : List ℤ) → HasDecimated self.old x
            → decimated_settled (x ++ block.now) ≡ decimated_settled x ++ take result out.new }
        ensures count { result ≤ length block.now }
        ensures room { length out.new ≡ length out.old }
    {
        feed_decimator(self, block, out)
    }

    /// Takes a part of a block, as `feed` takes a block. No sample of it is moved more than once.
    pub(crate) fn feed_part(&mut self, part: &[i16], out: &mut [i16]) -> usize
        requires part { length part.now ≤ 480 }
        requires room { length part.now ≤ length out.old }
        ensures fed { (x : List ℤ) → HasDecimated self.old x → HasDecimated self.new (x ++ part.now)
            × (decimated_settled (x ++ part.now) ≡ decimated_settled x ++ take result out.new) }
        ensures count { result ≤ length part.now }
        ensures room { length out.new ≡ length out.old }
    {
        let line = line_of(self.window.samples(), part);
        let left = usize::from(self.left);
        let count = (part.len() + 4).saturating_sub(left) / 5;
        filter_each_fifth(&line, left + 1, &mut out[..count]);
        self.window.replace(window_at(&line, part.len()));
        self.left = (left + 5 * count - part.len()) as u8;
        count
    }

    /// Puts the rest of the samples at 9600 a second at the front of `out`, as if zeros followed, and tells how many
    /// they are: the samples have ended.
    pub fn finish(&mut self, out: &mut [i16; 15]) -> usize
        ensures rest { (x : List ℤ) → HasDecimated self.old x → decimated x ≡ decimated_settled x ++ take result out.new }
        ensures count { result ≤ 15 }
    {
        self.feed(&[0; 15], out)
    }
}
