//! The connection to rigctld.
ghost use Rattle.std.specs.Prelude.{◌≡◌};
ghost use Rattle.keying.specs.Key.{is_down};

/// How reading on a connection ended.
#[derive(Clone, Copy, Debug, PartialEq, Eq)]
pub enum End {
    /// The daemon closed it.
    Closed,
    /// It failed.
    Fault,
}

/// How a try to connect and to write the first release ended.
#[derive(Clone, Copy, Debug, PartialEq, Eq)]
pub enum Try {
    /// There is no connection, or the release was not written whole.
    Refused,
    /// Nothing can be written yet.
    NotYet,
    /// The release was written.
    Written,
}

/// Where a connection stands.
#[derive(Clone, Copy, Debug, PartialEq, Eq)]
pub enum Phase {
    /// There is none.
    Down,
    /// It is being made: its first release is not written yet.
    Opening,
    /// Its first release is written.
    Up,
}

impl Phase {
    pub(crate) fn is_down(self) -> bool
        ensures { result ≡ is_down self }
    {
        match self {
            Phase::Down => true,
            Phase::Opening => false,
            Phase::Up => false,
        }
    }
}
