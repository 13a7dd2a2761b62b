//! The correlations of a window with the two tones of a bank, as phasors.

ghost use Rattle.std.specs.Prelude.{◌≡◌, ◌<◌, ◌≤◌, ◌+◌, ◌*◌, ◌/◌, ◌^◌, ◌*ℤ◌, ℕ, ℤ, pos, List, slice_index_or, unsigned_abs};
ghost use Rattle.tone_table.specs.declared.tone.Tone.TheVariants.{Mark, Space};
ghost use Rattle.offset_slicers.specs.Decision.{sum_below};
ghost use Rattle.tone_tracking.specs.Correlation.{weight};
ghost use Rattle.hf_tracking.specs.Correlation.{AreSmall, correlations, fine_weight, phase_at, phase_step};

use tone_table::Tone;
use tone_tracking::{Correlations, Phasor};

/// The banks, 25 Hz apart.
pub const BANKS: u8 = 9;

/// A turn, in 384ths.
const TURN: u64 = 384;

/// A sixth of a turn.
const SIXTH: u32 = 64;

/// A sine of amplitude 100 in 48 steps, over as many cycles as a window can reach, so that no phase is reduced to one.
static WAVE: [i32; 352] = [
    0, 13, 26, 38, 50, 61, 71, 79, 87, 92, 97, 99, 100, 99, 97, 92, 87, 79, 71, 61, 50, 38, 26, 13,
    0, -13, -26, -38, -50, -61, -71, -79, -87, -92, -97, -99, -100, -99, -97, -92, -87, -79, -71,
    -61, -50, -38, -26, -13, 0, 13, 26, 38, 50, 61, 71, 79, 87, 92, 97, 99, 100, 99, 97, 92, 87,
    79, 71, 61, 50, 38, 26, 13, 0, -13, -26, -38, -50, -61, -71, -79, -87, -92, -97, -99, -100,
    -99, -97, -92, -87, -79, -71, -61, -50, -38, -26, -13, 0, 13, 26, 38, 50, 61, 71, 79, 87, 92,
    97, 99, 100, 99, 97, 92, 87, 79, 71, 61, 50, 38, 26, 13, 0, -13, -26, -38, -50, -61, -71, -79,
    -87, -92, -97, -99, -100, -99, -97, -92, -87, -79, -71, -61, -50, -38, -26, -13, 0, 13, 26, 38,
    50, 61, 71, 79, 87, 92, 97, 99, 100, 99, 97, 92, 87, 79, 71, 61, 50, 38, 26, 13, 0, -13, -26,
    -38, -50, -61, -71, -79, -87, -92, -97, -99, -100, -99, -97, -92, -87, -79, -71, -61, -50, -38,
    -26, -13, 0, 13, 26, 38, 50, 61, 71, 79, 87, 92, 97, 99, 100, 99, 97, 92, 87, 79, 71, 61, 50,
    38, 26, 13, 0, -13, -26, -38, -50, -61, -71, -79, -87, -92, -97, -99, -100, -99, -97, -92, -87,
    -79, -71, -61, -50, -38, -26, -13, 0, 13, 26, 38, 50, 61, 71, 79, 87, 92, 97, 99, 100, 99, 97,
    92, 87, 79, 71, 61, 50, 38, 26, 13, 0, -13, -26, -38, -50, -61, -71, -79, -87, -92, -97, -99,
    -100, -99, -97, -92, -87, -79, -71, -61, -50, -38, -26, -13, 0, 13, 26, 38, 50, 61, 71, 79, 87,
    92, 97, 99, 100, 99, 97, 92, 87, 79, 71, 61, 50, 38, 26, 13, 0, -13, -26, -38, -50, -61, -71,
    -79, -87, -92, -97, -99, -100, -99, -97, -92, -87, -79, -71, -61, -50, -38, -26, -13, 0, 13,
    26, 38, 50, 61, 71, 79, 87, 92, 97, 99, 100, 99, 97, 92,
];

/// The correlations of the window of a place, as a bank expects the tones.
pub fn correlate(bank: u8, place: u64, window: &[i16; 32]) -> Correlations
    requires bank { bank < 9 }
    requires place { place < 2 ^ 48 }
    ensures sums { (x : List ℤ) → ((i : ℕ) → i < 32
        → slice_index_or window.now i (pos 0) ≡ slice_index_or x (4 * place + i) (pos 0))
        → result ≡ correlations bank x place }
    ensures bound { AreSmall result }
{
    let begin = phase_of(bank, place);
    let mark = step_of(bank, Tone::Mark);
    let space = step_of(bank, Tone::Space);
    Correlations {
        mark: Phasor {
            a: i64::from(sum_of_products(window, begin + SIXTH, mark)),
            b: -i64::from(sum_of_products(window, begin, mark)),
        },
        space: Phasor {
            a: i64::from(sum_of_products(window, begin + SIXTH, space)),
            b: -i64::from(sum_of_products(window, begin, space)),
        },
    }
}

/// The phase at which the window of a place begins, within a turn.
fn phase_of(bank: u8, place: u64) -> u32
    requires bank { bank < 9 }
    requires place { place < 2 ^ 48 }
    ensures phase { (k : ℕ) → fine_weight (result + k) ≡ fine_weight (phase_at bank place + k) }
    ensures bound { result < 384 }
{
    (4 * (place * (64 + u64::from(bank))) % TURN) as u32
}

/// How far the phase of a tone advances with a sample.
fn step_of(bank: u8, tone: Tone) -> u32
    requires { bank < 9 }
    ensures step { result ≡ phase_step bank tone }
    ensures bound { result ≤ 76 }
{
    match tone {
        Tone::Mark => 60 + u32::from(bank),
        Tone::Space => 68 + u32::from(bank),
    }
}

/// The sum of the products of a window's samples and the weights from a phase on.
fn sum_of_products(window: &[i16; 32], begin: u32, step: u32) -> i32
    requires begin { begin < 448 }
    requires step { step ≤ 76 }
    ensures sum { result ≡ sum_below (λ i. slice_index_or window.now i (pos 0) *ℤ fine_weight (begin + i * step)) 32 }
    ensures bound { unsigned_abs result ≤ 104857600 }
{
    let mut sum = 0;
    for i in 0..32_usize {
        sum += product(window[i], weight(begin + i as u32 * step));
    }
    sum
}

/// The wave at a phase.
fn weight(phase: u32) -> i32
    requires { phase < 2816 }
    ensures weight { result ≡ fine_weight phase }
    ensures bound { unsigned_abs result ≤ 100 }
{
    WAVE[(phase / 8) as usize]
}

/// The product of a sample and a weight.
fn product(sample: i16, weight: i32) -> i32
    requires { unsigned_abs weight ≤ 100 }
    ensures value { result ≡ sample *ℤ weight }
    ensures bound { unsigned_abs result ≤ 3276800 }
{
    i32::from(sample) * weight
}
