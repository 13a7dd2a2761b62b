//! By what another station is heard.

ghost use Rattle.std.specs.Prelude.{◌≡◌, ◌≤◌};
ghost use Rattle.slicer_bank.specs.Detection.{CanBeAsked, flags_of, listens_for_tones};

/// By what a lane hears another station.
#[derive(Clone, Copy, PartialEq, Eq, Debug)]
pub enum Detection {
    /// So many flags in a row, 1 to 8.
    Flags(u8),
    /// The tones of its transmission.
    Tones,
}

impl Detection {
    /// How many flags in a row a deframer listens for.
    pub(crate) fn flags(self) -> u8
        requires { CanBeAsked self }
        ensures flags { result ≡ flags_of self }
        ensures bounds { (1 ≤ result) × (result ≤ 8) }
    {
        match self {
            Detection::Flags(count) => count,
            Detection::Tones => 1,
        }
    }

    /// Whether the lane of an offset listens for tones.
    pub(crate) fn listens_for_tones(self, offset: u8) -> bool
        ensures { result ≡ listens_for_tones self offset }
    {
        match self {
            Detection::Flags(_) => false,
            Detection::Tones => offset % 2 == 0,
        }
    }
}
