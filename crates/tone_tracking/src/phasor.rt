//! Amplitude and phase in whole numbers.

ghost use Rattle.std.specs.Prelude.{◌≡◌, ◌≤◌, ◌*ℤ◌, unsigned_abs};
ghost use Rattle.tone_tracking.specs.Phasors.{IsWithin, plus, turn_back, size, three_quarters};

use tone_table::Tone;

/// The complex number a + b w, w being a sixth of a turn, so that w * w = w - 1.
#[derive(Clone, Copy, PartialEq, Eq, Debug)]
pub struct Phasor {
    /// The part along the whole numbers.
    pub a: i64,
    /// The part along a sixth of a turn.
    pub b: i64,
}

impl Phasor {
    /// No amplitude.
    pub(crate) const NONE: Phasor = Phasor { a: 0, b: 0 };

    /// The sum of two phasors.
    pub(crate) fn plus(self, other: Phasor) -> Phasor
        requires first { IsWithin 2000000000 self }
        requires second { IsWithin 2000000000 other }
        ensures { result ≡ plus self other }
    {
        Phasor {
            a: self.a + other.a,
            b: self.b + other.b,
        }
    }

    /// The phasor as it stands one window of a tone later: space is a sixth of a turn short of two cycles.
    pub(crate) fn turned_back(self, tone: Tone) -> Phasor
        requires { IsWithin 2100000000 self }
        ensures { result ≡ turn_back tone self }
    {
        match tone {
            Tone::Mark => self,
            Tone::Space => Phasor {
                a: self.a + self.b,
                b: -self.a,
            },
        }
    }

    /// Three quarters of each part, rounded down, as a shift does.
    pub(crate) fn three_quarters(self) -> Phasor
        requires { IsWithin 2000000000 self }
        ensures { result ≡ three_quarters self }
    {
        Phasor {
            a: (3 * self.a) >> 2,
            b: (3 * self.b) >> 2,
        }
    }

    /// The square of the amplitude, by two products in place of three.
    pub(crate) fn size(self) -> i64
        requires { IsWithin 2100000000 self }
        ensures { result ≡ size self }
    {
        let both = self.a + self.b;
        product(both, both) - product(self.a, self.b)
    }
}

/// The product of two parts.
fn product(part: i64, other: i64) -> i64
    requires part { unsigned_abs part ≤ 2100000000 }
    requires other { unsigned_abs other ≤ 2100000000 }
    ensures value { result ≡ part *ℤ other }
    ensures bound { unsigned_abs result ≤ 4410000000000000000 }
{
    part * other
}
