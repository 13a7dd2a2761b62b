//! What is heard of its tone in one window.

ghost use Rattle.std.specs.Prelude.{◌≡◌, ◌≤◌, unsigned_abs};
ghost use Rattle.offset_slicers.specs.Decision.{cosine_sum, sine_sum, tone_of};
ghost use Rattle.tone_carrier.specs.HeardWindows.{IsWithin, heard_window, part_of};

use crate::window_power::power;
use offset_slicers::{correlate, decide};
use tone_table::Tone;

/// The tone of a window of eight samples, where that tone stands in its cycle and how large it is, and how loud the
/// window is.
#[derive(Clone, Copy, PartialEq, Eq, Debug)]
pub struct HeardWindow {
    /// The tone that the window was decided as.
    pub tone: Tone,
    /// A 256th of the window's sum with the sine of that tone, rounded down.
    pub sine: i64,
    /// A 256th of its sum with the cosine.
    pub cosine: i64,
    /// The power of the window.
    pub power: i64,
}

impl HeardWindow {
    /// What is heard in a window.
    pub fn of(window: &[i16; 8]) -> HeardWindow
        ensures heard { result ≡ heard_window window.now }
        ensures within { IsWithin result }
    {
        let [mark_sine, mark_cosine, space_sine, space_cosine] = correlate(window);
        match decide(window) {
            Tone::Mark => HeardWindow::decided(window, Tone::Mark, mark_sine, mark_cosine),
            Tone::Space => HeardWindow::decided(window, Tone::Space, space_sine, space_cosine),
        }
    }

    /// The same of a window that was decided as a tone, by its sums with that tone's sine and cosine, which the
    /// decision made.
    pub fn decided(window: &[i16; 8], tone: Tone, sine: i64, cosine: i64) -> HeardWindow
        requires tone { tone ≡ tone_of window.now }
        requires sine { sine ≡ sine_sum tone window.now }
        requires cosine { cosine ≡ cosine_sum tone window.now }
        requires sine_size { unsigned_abs sine ≤ 2621440000 }
        requires cosine_size { unsigned_abs cosine ≤ 2621440000 }
        ensures heard { result ≡ heard_window window.now }
        ensures within { IsWithin result }
    {
        HeardWindow {
            tone,
            sine: part_of(sine),
            cosine: part_of(cosine),
            power: power(window),
        }
    }
}

/// A 256th of a sum, rounded down, as a shift does.
fn part_of(sum: i64) -> i64
    requires { unsigned_abs sum ≤ 2621440000 }
    ensures part { result ≡ part_of sum }
    ensures bound { unsigned_abs result ≤ 10240000 }
{
    sum >> 8
}
