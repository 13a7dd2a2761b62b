//! Sound among the samples of a tick.
ghost use Rattle.std.specs.Prelude.{◌≡◌};
ghost use Rattle.channel_access.specs.Sound.{has_sound};

/// Whether samples have sound: one of them is not 0.
pub(crate) fn has_sound(samples: &[i16]) -> bool
    ensures { result ≡ has_sound samples.now }
{
    samples.iter().any(|sample| *sample != 0)
}
