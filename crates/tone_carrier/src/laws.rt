//! Laws of the definitions, which need no work.

ghost use Rattle.std.specs.Prelude.{◌≡◌, ◌↔◌, ℕ, ◌+◌, ◌*◌, ◌%◌, ℤ, ◌<◌, ◌≤◌, List, ◌++◌, length, replicate};
ghost use Rattle.tone_table.specs.declared.tone.Tone.{Tone};
ghost use Rattle.tone_table.specs.Wave.{wave_from};
ghost use Rattle.offset_slicers.specs.Near.{IsNear};
ghost use Rattle.tone_carrier.specs.declared.heard_window.HeardWindow.{HeardWindow};
ghost use Rattle.tone_carrier.specs.Tones.{HasTones, ShowsCarrier};
ghost use Rattle.tone_carrier.specs.Hold.{last_hold};

/// The count by which a lane knows it says the same as the definition: windows show a carrier exactly if the hold after
/// the last of them is above 0.
pub fn hold_shows_carrier()
    ensures { (windows : List HeardWindow) → (0 < last_hold windows) ↔ ShowsCarrier windows }
{}

/// A constant never has tones, and so silence has none.
pub fn constants_have_no_tones()
    ensures { (begin count : ℕ) (level : ℤ) → HasTones begin (replicate count level) → ⊥ }
{}

/// Samples near a wave have tones from its 25th bit on, if it begins at an even place: at every level, whatever the
/// tones, from any phase at which a bit can begin, each sample off by at most a tenth of the level, and whatever was
/// heard before.
pub fn near_waves_have_tones()
    ensures { (level k begin : ℕ) (tones : List Tone) (before x : List ℤ) → 1 ≤ level → k < 6 → 25 ≤ length tones
        → (begin + length before) % 2 ≡ 0
        → IsNear level (wave_from (8 * k) tones) x → HasTones begin (before ++ x) }
{}
