//! The tone of a window.

ghost use Rattle.std.specs.Prelude.{◌≡◌, ◌≤◌, unsigned_abs};
ghost use Rattle.tone_table.specs.declared.tone.Tone.TheVariants.{Mark, Space};
ghost use Rattle.offset_slicers.specs.Decision.{square};
ghost use Rattle.hf_modem.specs.Decision.{energy, tone_of};

use crate::correlators::correlate;
use tone_table::Tone;

/// The tone of a window of 32 samples: mark, 1600 Hz, exactly when its energy is at least that of space, 1800 Hz. So
/// silence is mark.
#[tactic(auto, unfolding(crate::specs::Decision::tone_of))]
pub fn hf_decide(window: &[i16; 32]) -> Tone
    ensures { result ≡ tone_of window.now }
{
    let (mark, space) = energies(window);
    if mark >= space {
        Tone::Mark
    } else {
        Tone::Space
    }
}

/// The energies of mark and of space in a window, in this order. They pass 64 bits, and fit into 128 for every window.
#[tactic(auto, unfolding(crate::specs::Decision::energy))]
fn energies(window: &[i16; 32]) -> (u128, u128)
    ensures mark { result.0 ≡ energy Mark window.now }
    ensures space { result.1 ≡ energy Space window.now }
{
    let [mark_sine, mark_cosine, space_sine, space_cosine] = correlate(window);
    (
        square_of(mark_sine) + square_of(mark_cosine),
        square_of(space_sine) + square_of(space_cosine),
    )
}

/// The square of a correlation.
fn square_of(sum: i64) -> u128
    requires { unsigned_abs sum ≤ 10485760000 }
    ensures value { result ≡ square sum }
    ensures bound { result ≤ 109951162777600000000 }
{
    let size = u128::from(sum.unsigned_abs());
    size * size
}
