//! The two ends.
ghost use Rattle.std.specs.Prelude.{◌≡◌};
ghost use Rattle.link_world.specs.World.{call_of, path_from, other};

use arrayvec::ArrayVec;
use ax25_address::{Call, Path, Role};

/// One of the two ends.
#[derive(Clone, Copy, Debug, PartialEq, Eq)]
pub enum End {
    /// The first.
    A,
    /// The second.
    B,
}

impl End {
    /// The partner.
    fn other(self) -> End
        ensures { result ≡ other self }
    {
        match self {
            End::A => End::B,
            End::B => End::A,
        }
    }

    /// The call of its station, by the end's own name.
    fn call(self) -> Call
        ensures { result ≡ call_of self }
    {
        match self {
            End::A => Call::new("A", 0).unwrap(),
            End::B => Call::new("B", 0).unwrap(),
        }
    }

    /// From the end to its partner, by no repeater.
    pub(crate) fn path(self) -> Path
        ensures { result ≡ path_from self }
    {
        Path {
            dest: self.other().call(),
            source: self.call(),
            repeaters: ArrayVec::new(),
            role: Role::Command,
        }
    }
}
