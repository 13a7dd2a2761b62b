//! How a Bell 202 correlator decides. Each tone has a sine and a cosine of its own frequency. The
//! products of the samples with the sine and with the cosine are added up over a bit; the two sums
//! are the sides of a right triangle whose hypotenuse is the tone's amplitude in the window,
//! whatever phase the tone began at. So the sum of their squares is the tone's energy, and the tone
//! with more energy is the one that was sent. One cycle of the sine has 48 steps; a mark sample
//! advances 6 of them, a space sample 11, and a cosine is the sine 12 steps on.
//!
//! The four sums of eight products each are made side by side, by vectors: products are added in pairs, as one
//! instruction of a processor does it, and what is left in pairs again, until each lane of one vector holds a sum.

ghost use Rattle.std.specs.Prelude.{◌≡◌, ◌≤◌, [], ◌∷◌, All, unsigned_abs, length};
ghost use Rattle.tone_table.specs.declared.tone.Tone.TheVariants.{Mark, Space};
ghost use Rattle.offset_slicers.specs.Decision.{sine_sum, cosine_sum};
ghost use Rattle.offset_slicers.specs.PairSums.{AreLight, AreSmall, in_pairs, pairs_of_products};

use std::simd::prelude::*;

/// The sine of mark at the eight samples of a window.
static MARK_SINE: [i16; 8] = [0, 7071, 10000, 7071, 0, -7071, -10000, -7071];

/// The cosine of mark.
static MARK_COSINE: [i16; 8] = [10000, 7071, 0, -7071, -10000, -7071, 0, 7071];

/// The sine of space.
static SPACE_SINE: [i16; 8] = [0, 9914, 2588, -9239, -5000, 7934, 7071, -6088];

/// The cosine of space.
static SPACE_COSINE: [i16; 8] = [10000, 1305, -9659, -3827, 8660, 6088, -7071, -7934];

/// The correlations of a window with the sine and cosine of mark and with the sine and cosine of
/// space, in this order. Each is at most 2,621,440,000 in size.
pub fn correlate(window: &[i16; 8]) -> [i64; 4]
    ensures sums { result ≡ sine_sum Mark window.now ∷ cosine_sum Mark window.now
        ∷ sine_sum Space window.now ∷ cosine_sum Space window.now ∷ [] }
    ensures bound { All (λ sum. unsigned_abs sum ≤ 2621440000) result }
{
    let samples = vector_of(window);
    let mark = half_sums(samples, &MARK_SINE, &MARK_COSINE);
    let space = half_sums(samples, &SPACE_SINE, &SPACE_COSINE);
    let sums = in_pairs(mark, space).to_array();
    [
        i64::from(sums[0]),
        i64::from(sums[1]),
        i64::from(sums[2]),
        i64::from(sums[3]),
    ]
}

/// Eight numbers, a lane each.
fn vector_of(numbers: &[i16; 8]) -> i32x8
    ensures lanes { result ≡ numbers.now }
    ensures length { length result ≡ 8 }
    ensures bound { All (λ number. unsigned_abs number ≤ 32768) result }
{
    let [a, b, c, d, e, f, g, h] = *numbers;
    i16x8::from_array([a, b, c, d, e, f, g, h]).cast::<i32>()
}

/// The sums of the products of samples and a tone's sine, and of those with its cosine, each as two lanes.
fn half_sums(samples: i32x8, sine: &[i16; 8], cosine: &[i16; 8]) -> i32x4
    requires length { length samples ≡ 8 }
    requires samples { All (λ sample. unsigned_abs sample ≤ 32768) samples }
    requires sine { AreLight sine.now }
    requires cosine { AreLight cosine.now }
    ensures sums { result ≡ in_pairs (pairs_of_products samples sine.now) (pairs_of_products samples cosine.now) }
    ensures bound { AreSmall 1050000000 result }
{
    in_pairs(
        pairs_of_products(samples, sine),
        pairs_of_products(samples, cosine),
    )
}

/// The products of samples and weights, place by place, each added to the one next to it.
fn pairs_of_products(samples: i32x8, weights: &[i16; 8]) -> i32x4
    requires length { length samples ≡ 8 }
    requires samples { All (λ sample. unsigned_abs sample ≤ 32768) samples }
    requires weights { AreLight weights.now }
    ensures pairs { result ≡ pairs_of_products samples weights.now }
    ensures bound { AreSmall 655360000 result }
{
    let products = samples.strict_mul(vector_of(weights));
    products
        .swizzle([0, 2, 4, 6])
        .strict_add(products.swizzle([1, 3, 5, 7]))
}

/// The lanes of two vectors, each added to the one next to it.
fn in_pairs(first: i32x4, second: i32x4) -> i32x4
    requires first { AreSmall 1050000000 first }
    requires second { AreSmall 1050000000 second }
    ensures { result ≡ in_pairs first second }
{
    first
        .shuffle(second, [0, 2, 4, 6])
        .strict_add(first.shuffle(second, [1, 3, 5, 7]))
}
