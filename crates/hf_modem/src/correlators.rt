//! How a correlator decides between 1600 and 1800 Hz. Each tone has a sine and a cosine of its own frequency. The
//! products of the samples with the sine and with the cosine are added up over a bit; the two sums are the sides of a
//! right triangle whose hypotenuse is the tone's amplitude in the window, whatever phase the tone began at. So the sum
//! of their squares is the tone's energy. In a bit, 1/300 of a second, mark goes through 5 1/3 cycles and space through
//! 6: the tones are so near that a window of one has a sixth of its energy in the other. One cycle of the sine has 48
//! steps; a mark sample advances 8 of them, a space sample 9, and a cosine is the sine 12 steps on.

ghost use Rattle.std.specs.Prelude.{◌≡◌, ◌≤◌, ◌*ℤ◌, [], ◌∷◌, All, sum_by, unsigned_abs};
ghost use Rattle.tone_table.specs.declared.tone.Tone.TheVariants.{Mark, Space};
ghost use Rattle.offset_slicers.specs.Decision.{sum_below, product_of};
ghost use Rattle.hf_modem.specs.Decision.{sine_sum, cosine_sum};

/// The sine of mark at the 32 samples of a window.
static MARK_SINE: [i16; 32] = [
    0, 8660, 8660, 0, -8660, -8660, 0, 8660, 8660, 0, -8660, -8660, 0, 8660, 8660, 0, -8660, -8660,
    0, 8660, 8660, 0, -8660, -8660, 0, 8660, 8660, 0, -8660, -8660, 0, 8660,
];

/// The cosine of mark.
static MARK_COSINE: [i16; 32] = [
    10000, 5000, -5000, -10000, -5000, 5000, 10000, 5000, -5000, -10000, -5000, 5000, 10000, 5000,
    -5000, -10000, -5000, 5000, 10000, 5000, -5000, -10000, -5000, 5000, 10000, 5000, -5000,
    -10000, -5000, 5000, 10000, 5000,
];

/// The sine of space.
static SPACE_SINE: [i16; 32] = [
    0, 9239, 7071, -3827, -10000, -3827, 7071, 9239, 0, -9239, -7071, 3827, 10000, 3827, -7071,
    -9239, 0, 9239, 7071, -3827, -10000, -3827, 7071, 9239, 0, -9239, -7071, 3827, 10000, 3827,
    -7071, -9239,
];

/// The cosine of space.
static SPACE_COSINE: [i16; 32] = [
    10000, 3827, -7071, -9239, 0, 9239, 7071, -3827, -10000, -3827, 7071, 9239, 0, -9239, -7071,
    3827, 10000, 3827, -7071, -9239, 0, 9239, 7071, -3827, -10000, -3827, 7071, 9239, 0, -9239,
    -7071, 3827,
];

/// The correlations of a window with the sine and cosine of mark and with the sine and cosine of space, in this order.
pub(crate) fn correlate(window: &[i16; 32]) -> [i64; 4]
    ensures sums { result ≡ sine_sum Mark window.now ∷ cosine_sum Mark window.now
        ∷ sine_sum Space window.now ∷ cosine_sum Space window.now ∷ [] }
    ensures bound { All (λ sum. unsigned_abs sum ≤ 10485760000) result }
{
    [
        sum_of_products(window, &MARK_SINE),
        sum_of_products(window, &MARK_COSINE),
        sum_of_products(window, &SPACE_SINE),
        sum_of_products(window, &SPACE_COSINE),
    ]
}

/// The sum of the products of samples and weights, place by place.
fn sum_of_products(window: &[i16; 32], weights: &[i16; 32]) -> i64
    requires { sum_by unsigned_abs weights.now ≤ 320000 }
    ensures sum { result ≡ sum_below (product_of window.now weights.now) 32 }
    ensures bound { unsigned_abs result ≤ 10485760000 }
{
    let mut sum = 0;
    for i in 0..32 {
        sum += i64::from(product(window[i], weights[i]));
    }
    sum
}

/// The product of a sample and a weight.
fn product(sample: i16, weight: i16) -> i32
    ensures { result ≡ sample *ℤ weight }
{
    i32::from(sample) * i32::from(weight)
}
