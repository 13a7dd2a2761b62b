//! Laws on the definitions. A law is the contract of a function that does nothing.

ghost use Rattle.std.specs.Prelude.{◌≡◌, ℕ, ◌<◌, ◌≤◌, ◌*◌, ℤ, List};
ghost use Rattle.tone_table.specs.declared.tone.Tone.{Tone};
ghost use Rattle.tone_table.specs.Wave.{pure_window};
ghost use Rattle.offset_slicers.specs.Decision.{tone_of};
ghost use Rattle.offset_slicers.specs.Near.{IsNear};

/// The law of clean windows, which needs no work: a window of one tone is decided as that tone at
/// each of the six phases at which a bit of a transmission can begin, 0, 8, 16, 24, 32 and 40.
pub fn pure_windows()
    ensures { (k : ℕ) (tone : Tone) → k < 6 → tone_of (pure_window (8 * k) tone) ≡ tone }
{}

/// So is each window near one, at every level: any error of at most a tenth of the level leaves the
/// energy of the tone that was sent more than that of the other.
pub fn near_windows()
    ensures { (level k : ℕ) (tone : Tone) (x : List ℤ) → 1 ≤ level → k < 6
        → IsNear level (pure_window (8 * k) tone) x → tone_of x ≡ tone }
{}
