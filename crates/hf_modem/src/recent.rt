//! The last 32 samples: the window that ends with the last of them.

ghost use Rattle.std.specs.Prelude.{◌≡◌, ℤ, List, [], ◌∷◌, ◌++◌, drop, length};
ghost use Rattle.hf_modem.specs.Held.{silence, last_window};

use std::marker::Model;

/// The last 32 samples, with silence before the first.
#[derive(Debug, Drop)]
pub(crate) struct Recent {
    window: [i16; 32],
}

impl Model for Recent {
    ghost use Rattle.std.specs.Prelude.{ℤ, List};

    ghost Value = { List ℤ };

    ghost view = { λ s. s.window };
}

impl Recent {
    /// Silence.
    pub(crate) fn new() -> Recent
        ensures { result ≡ last_window [] }
    {
        Recent { window: [0; 32] }
    }

    /// Takes one sample more.
    pub(crate) fn push(&mut self, sample: i16)
        ensures { (x : List ℤ) → self.old ≡ last_window x → self.new ≡ last_window (x ++ sample ∷ []) }
    {
        self.window.copy_within(1..32, 0);
        self.window[31] = sample;
    }

    /// The window that ends with the last sample.
    pub(crate) fn window(&self) -> &[i16; 32]
        ensures { result.now ≡ self.now }
    {
        &self.window
    }
}
