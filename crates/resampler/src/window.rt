//! The last 31 samples, and their sum with the taps of the filter.

ghost use Rattle.std.specs.Prelude.{◌≡◌, ◌+◌, ◌<◌, ◌≤◌, ◌*◌, ◌*ℤ◌, ℤ, List, [], ◌∷◌, ◌++◌, length, take, drop, sum_by};
ghost use Rattle.std.specs.Prelude.{unsigned_abs};
ghost use Rattle.offset_slicers.specs.Decision.{sum_below, product_of};
ghost use Rattle.resampler.specs.Taps.{taps, sample_of_sum};
ghost use Rattle.resampler.specs.Held.{last_window};
ghost use Rattle.resampler.specs.Line.{sample_of_window};

use std::marker::Model;

/// The taps from h(-15) to h(15), in 1024ths.
static TAPS: [i16; 31] = [
    1, 4, 6, 7, 4, -4, -15, -26, -29, -19, 7, 49, 99, 147, 183, 196, 183, 147, 99, 49, 7, -19, -29,
    -26, -15, -4, 4, 7, 6, 4, 1,
];

/// The samples that are kept: the last 31 move through them, and seldom back to the front.
const ROOM: usize = 512;

/// The last place at which 31 samples begin.
const LAST: usize = 481;

/// The last 31 samples, with zeros before the first.
#[derive(Debug, Drop)]
pub(crate) struct Window {
    samples: [i16; ROOM],
    begin: usize,
}

impl Model for Window {
    ghost use Rattle.std.specs.Prelude.{ℤ, List, ◌≤◌, take, drop};

    ghost Value = { List ℤ };

    ghost view = { λ s. take 31 (drop s.begin s.samples) };

    ghost invariant = { λ s. s.begin ≤ 481 };
}

impl Window {
    /// Zeros.
    pub(crate) fn new() -> Window
        ensures { result ≡ last_window [] }
    {
        Window {
            samples: [0; ROOM],
            begin: 0,
        }
    }

    /// Takes one sample more.
    pub(crate) fn push(&mut self, sample: i16)
        ensures { (x : List ℤ) → self.old ≡ last_window x → self.new ≡ last_window (x ++ sample ∷ []) }
    {
        if self.begin < LAST {
            self.samples[self.begin + 31] = sample;
            self.begin += 1;
        } else {
            self.samples.copy_within(LAST + 1..ROOM, 0);
            self.samples[30] = sample;
            self.begin = 0;
        }
    }

    /// The samples in a row.
    pub(crate) fn samples(&self) -> &[i16; 31]
        ensures { result.now ≡ self.now }
    {
        window_at(&self.samples, self.begin)
    }

    /// Keeps these samples and none of those before.
    pub(crate) fn replace(&mut self, samples: &[i16; 31])
        ensures { self.new ≡ samples.now }
    {
        self.samples[..31].copy_from_slice(samples);
        self.begin = 0;
    }

    /// The sum of the samples, each times its tap. It is at most 45,744,128 in size.
    pub(crate) fn sum(&self) -> i32
        ensures sum { result ≡ sum_below (product_of self.now taps) 31 }
        ensures bound { unsigned_abs result ≤ 45744128 }
    {
        sum_of_products(self.samples(), &TAPS)
    }
}

/// The 31 samples from one of them on.
pub(crate) fn window_at(samples: &[i16], begin: usize) -> &[i16; 31]
    requires { begin + 31 ≤ length samples.now }
    ensures { result.now ≡ take 31 (drop begin samples.now) }
{
    samples[begin..].first_chunk().unwrap()
}

/// The filtered sample of a window.
pub(crate) fn sample_of_window(window: &[i16; 31]) -> i16
    ensures { result ≡ sample_of_window window.now }
{
    sample_of_sum(sum_of_products(window, &TAPS))
}

/// The sum of the products of samples and weights, place by place. The sizes of the weights add up to so little that
/// the sum fits into 32 bits, in which it is quick.
fn sum_of_products(window: &[i16; 31], weights: &[i16; 31]) -> i32
    requires weights { sum_by unsigned_abs weights.now ≤ 1396 }
    ensures sum { result ≡ sum_below (product_of window.now weights.now) 31 }
    ensures bound { unsigned_abs result ≤ 45744128 }
{
    let mut sum = 0;
    for i in 0..31 {
        sum += product(window[i], weights[i]);
    }
    sum
}

/// The product of a sample and a weight.
fn product(sample: i16, weight: i16) -> i32
    ensures { result ≡ sample *ℤ weight }
{
    i32::from(sample) * i32::from(weight)
}

/// A sum of so many 1024ths as a sample, rounded down, or the nearest sample if there is none.
pub(crate) fn sample_of_sum(sum: i32) -> i16
    ensures { result ≡ sample_of_sum sum }
{
    sum.div_euclid(1024).clamp(-32768, 32767) as i16
}
