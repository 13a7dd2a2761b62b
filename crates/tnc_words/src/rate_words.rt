//! The rate of sound, of two.
ghost use Rattle.std.specs.Prelude.{IfSome, IsNone, option_map};
ghost use Rattle.tnc_words.specs.declared.command.SampleRate.{SampleRate};
ghost use Rattle.tnc_words.specs.Numbers.{HasNumber};
ghost use Rattle.tnc_words.specs.Rates.{HasStationRate, samples_a_second};

use crate::command::SampleRate;
use crate::number::{Bounds, number_or_default};

/// The number of a rate, which is the least or the greatest of these.
const RATES: Bounds = Bounds {
    least: 9600,
    greatest: 48_000,
};

/// The rate with the number of a text, or 9600 samples a second if there is no text.
pub(crate) fn sample_rate(text: Option<&str>) -> Option<SampleRate>
    ensures rate { IfSome result (λ rate.
        HasNumber (option_map (λ t. t.now) text.entry) 9600 9600 48000 (samples_a_second rate)) }
    ensures none { IsNone result → (rate : SampleRate)
        → ¬ HasNumber (option_map (λ t. t.now) text.entry) 9600 9600 48000 (samples_a_second rate) }
{
    match number_or_default(text, 9600, RATES)? {
        9600 => Some(SampleRate::Narrow),
        48_000 => Some(SampleRate::Wide),
        _ => None,
    }
}

/// The rate of a station, by the texts of its rate and of the check octets that it sends. Blocks are read at 9600 samples
/// a second alone.
pub(crate) fn station_rate(text: Option<&str>, checks: Option<&str>) -> Option<SampleRate>
    ensures rate { IfSome result (HasStationRate (option_map (λ t. t.now) text.entry) (option_map (λ t. t.now) checks.entry)) }
    ensures none { IsNone result → (rate : SampleRate)
        → ¬ HasStationRate (option_map (λ t. t.now) text.entry) (option_map (λ t. t.now) checks.entry) rate }
{
    let rate = sample_rate(text)?;
    match (checks, rate) {
        (Some(_), SampleRate::Wide) => None,
        (_, rate) => Some(rate),
    }
}
