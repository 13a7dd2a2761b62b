//! The energies of the two tones in a window, and the tone that it has.

ghost use Rattle.std.specs.Prelude.{◌≡◌, ◌≤◌, unsigned_abs};
ghost use Rattle.tone_table.specs.declared.tone.Tone.TheVariants.{Mark, Space};
ghost use Rattle.offset_slicers.specs.Decision.{cosine_sum, energy, sine_sum, square, tone_of};

use crate::correlators::correlate;
use tone_table::Tone;

/// The energies of mark and of space in a window, in this order. They fit for every window of
/// samples.
#[tactic(auto, unfolding(crate::specs::Decision::energy))]
pub fn energies(window: &[i16; 8]) -> (u64, u64)
    ensures mark { result.0 ≡ energy Mark window.now }
    ensures space { result.1 ≡ energy Space window.now }
{
    let [mark_sine, mark_cosine, space_sine, space_cosine] = correlate(window);
    (
        square_of(mark_sine) + square_of(mark_cosine),
        square_of(space_sine) + square_of(space_cosine),
    )
}

/// The tone of a window: mark exactly when the energy of mark is at least that of space, so also
/// in silence.
pub fn decide(window: &[i16; 8]) -> Tone
    ensures { result ≡ tone_of window.now }
{
    Decision::of(window).tone
}

/// What a window is decided as: its tone, and the sums of the window with that tone's sine and cosine. The sums say how
/// large the tone is and where in its cycle the window begins.
#[derive(Clone, Copy, PartialEq, Eq, Debug)]
pub struct Decision {
    pub tone: Tone,
    /// The sum with the tone's sine.
    pub sine: i64,
    /// The sum with its cosine.
    pub cosine: i64,
}

impl Decision {
    /// The decision on a window, as `decide` makes it.
    #[tactic(auto, unfolding(crate::specs::Decision::tone_of, crate::specs::Decision::energy))]
    pub fn of(window: &[i16; 8]) -> Decision
        ensures tone { result.tone ≡ tone_of window.now }
        ensures sine { result.sine ≡ sine_sum result.tone window.now }
        ensures cosine { result.cosine ≡ cosine_sum result.tone window.now }
        ensures sine_size { unsigned_abs result.sine ≤ 2621440000 }
        ensures cosine_size { unsigned_abs result.cosine ≤ 2621440000 }
    {
        let [mark_sine, mark_cosine, space_sine, space_cosine] = correlate(window);
        let mark = square_of(mark_sine) + square_of(mark_cosine);
        let space = square_of(space_sine) + square_of(space_cosine);
        if mark >= space {
            Decision {
                tone: Tone::Mark,
                sine: mark_sine,
                cosine: mark_cosine,
            }
        } else {
            Decision {
                tone: Tone::Space,
                sine: space_sine,
                cosine: space_cosine,
            }
        }
    }
}

/// The square of a correlation, which two of fit together into 64 bits.
fn square_of(sum: i64) -> u64
    requires { unsigned_abs sum ≤ 2621440000 }
    ensures value { result ≡ square sum }
    ensures bound { result ≤ 6871947673600000000 }
{
    let size = sum.unsigned_abs();
    size * size
}
