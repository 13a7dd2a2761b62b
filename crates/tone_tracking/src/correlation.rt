//! The correlations of a window with the two tones, as phasors.
//!
//! Each sum is made sample by sample and without vectors. The last sample of a window has just been written, so a load of
//! several samples at once would have to wait until that write is done.

ghost use Rattle.std.specs.Prelude.{◌≡◌, ◌+◌, ◌<◌, ◌≤◌, pos, ◌-ℤ◌, ◌*ℤ◌, slice_index_or, sum_by, unsigned_abs};
ghost use Rattle.std.specs.List.{All};
ghost use Rattle.offset_slicers.specs.Decision.{sum_below, product_of};
ghost use Rattle.tone_table.specs.declared.tone.Tone.TheVariants.{Mark, Space};
ghost use Rattle.tone_tracking.specs.Correlation.{AreWithin, correlation, correlations};
ghost use Rattle.tone_tracking.specs.Phasors.{IsWithin};

use crate::phasor::Phasor;

/// The weights of space a sixth of a turn on.
static SPACE_ON: [i32; 8] = [87, 61, -71, -79, 50, 92, -26, -99];

/// The weights of space.
static SPACE: [i32; 8] = [0, 99, 26, -92, -50, 79, 71, -61];

/// The correlations of a window with mark and with space.
#[derive(Clone, Copy, PartialEq, Eq, Debug)]
pub struct Correlations {
    /// With mark.
    pub mark: Phasor,
    /// With space.
    pub space: Phasor,
}

impl Correlations {
    /// Of silence.
    pub(crate) const NONE: Correlations = Correlations {
        mark: Phasor::NONE,
        space: Phasor::NONE,
    };
}

/// The correlations of a window of eight samples.
pub fn correlate(window: &[i32; 8]) -> Correlations
    requires { All (λ sample. unsigned_abs sample ≤ 262144) window.now }
    ensures sums { result ≡ correlations window.now 0 }
    ensures bound { AreWithin result }
{
    Correlations {
        mark: correlate_mark(window),
        space: correlate_space(window),
    }
}

/// The correlation with mark. Half a cycle of mark takes four samples, so its weights turn round there, and differences
/// of samples four places apart are weighted.
fn correlate_mark(window: &[i32; 8]) -> Phasor
    requires { All (λ sample. unsigned_abs sample ≤ 262144) window.now }
    ensures sum { result ≡ correlation Mark window.now 0 }
    ensures bound { IsWithin 297000000 result }
{
    let first = difference(window, 0);
    let second = difference(window, 1);
    let third = difference(window, 2);
    let fourth = difference(window, 3);
    Phasor {
        a: i64::from(87 * first + 97 * second + 50 * third - 26 * fourth),
        b: i64::from(-(71 * second + 100 * third + 71 * fourth)),
    }
}

/// A sample of a window, less the one four places on.
fn difference(window: &[i32; 8], place: usize) -> i32
    requires place { place < 4 }
    requires samples { All (λ sample. unsigned_abs sample ≤ 262144) window.now }
    ensures value { result ≡ slice_index_or window.now place (pos 0) -ℤ slice_index_or window.now (place + 4) (pos 0) }
    ensures bound { unsigned_abs result ≤ 524288 }
{
    window[place] - window[place + 4]
}

/// The correlation with space.
fn correlate_space(window: &[i32; 8]) -> Phasor
    requires { All (λ sample. unsigned_abs sample ≤ 262144) window.now }
    ensures sum { result ≡ correlation Space window.now 0 }
    ensures bound { IsWithin 297000000 result }
{
    Phasor {
        a: i64::from(sum_of_products(window, &SPACE_ON)),
        b: i64::from(-sum_of_products(window, &SPACE)),
    }
}

/// The sum of the products of samples and weights, place by place.
fn sum_of_products(window: &[i32; 8], weights: &[i32; 8]) -> i32
    requires samples { All (λ sample. unsigned_abs sample ≤ 262144) window.now }
    requires weights { sum_by unsigned_abs weights.now ≤ 566 }
    ensures sum { result ≡ sum_below (product_of window.now weights.now) 8 }
    ensures bound { unsigned_abs result ≤ 148373504 }
{
    let mut sum = 0;
    for i in 0..8 {
        sum += product(window[i], weights[i]);
    }
    sum
}

/// The product of a sample and a weight.
fn product(sample: i32, weight: i32) -> i32
    requires sample { unsigned_abs sample ≤ 262144 }
    requires weight { unsigned_abs weight ≤ 566 }
    ensures { result ≡ sample *ℤ weight }
{
    sample * weight
}
