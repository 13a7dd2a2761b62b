//! The tones of one place.

ghost use Rattle.std.specs.Prelude.{◌≡◌, ◌≤◌};
ghost use Rattle.tone_tracking.specs.Slots.{packed, tone_bit, tone_of};

use crate::reach::Reach;
use tone_table::Tone;

/// The tone that each list has at a place, in one octet.
#[derive(Clone, Copy, PartialEq, Eq, Debug)]
pub struct PlaceTones {
    /// A bit for each list, 1 for space: the lowest of windows that are decided alone, the next of those that are decided with
    /// the last one and the next one, the third of those that are decided with all before them and the next two.
    bits: u8,
}

impl PlaceTones {
    /// Of a line at rest.
    pub(crate) const MARK: PlaceTones = PlaceTones { bits: 0 };

    /// The tone that each list has.
    #[inline(always)]
    pub fn new(alone: Tone, near: Tone, far: Tone) -> PlaceTones
        ensures { result ≡ packed alone near far }
    {
        PlaceTones {
            bits: bit_of(alone) + 2 * bit_of(near) + 4 * bit_of(far),
        }
    }

    /// The tone of a list.
    #[inline(always)]
    pub fn of(self, reach: Reach) -> Tone
        ensures { result ≡ tone_of reach self }
    {
        let bits = match reach {
            Reach::Alone => self.bits,
            Reach::Near => self.bits / 2,
            Reach::Far => self.bits / 4,
        };
        if bits % 2 == 0 {
            Tone::Mark
        } else {
            Tone::Space
        }
    }
}

/// The bit of a tone.
#[inline(always)]
fn bit_of(tone: Tone) -> u8
    ensures value { result ≡ tone_bit tone }
    ensures bound { result ≤ 1 }
{
    match tone {
        Tone::Mark => 0,
        Tone::Space => 1,
    }
}
