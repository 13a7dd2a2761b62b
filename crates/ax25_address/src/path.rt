//! The path of a frame.
ghost use Rattle.std.specs.Prelude.{◌≡◌, ℕ, ◌+◌, ◌<◌, ◌≤◌, ◌↔◌, [], ◌∷◌, length, take, map};
ghost use Rattle.ax25_address.specs.FramePath.{way_back};

use crate::call::Call;
use arrayvec::ArrayVec;

/// A repeater of a path.
#[derive(Clone, Copy, Debug, PartialEq, Eq, Default)]
pub struct Hop {
    /// The repeater's call.
    pub call: Call,
    /// Whether it has repeated the frame: its H bit.
    pub done: bool,
}

/// What the C bits of the destination and the source say (AX.25 2.2 section 6.1.2).
#[derive(Clone, Copy, Debug, PartialEq, Eq)]
pub enum Role {
    /// A command: 1 and 0.
    Command,
    /// A response: 0 and 1.
    Response,
    /// A station of the older version: both bits are equal, and this is their value.
    Old(bool),
}

/// From which station a frame comes, to which it goes, and by which repeaters.
#[derive(Clone, Debug, PartialEq, Eq, Drop)]
pub struct Path {
    /// The station that the frame is for.
    pub dest: Call,
    /// The station that sent it.
    pub source: Call,
    /// The repeaters in the order in which they repeat it.
    pub repeaters: ArrayVec<Hop, 8>,
    /// Whether it is a command or a response.
    pub role: Role,
}

impl Path {
    /// The same path in another role.
    pub fn with_role(&self, role: Role) -> Path
        ensures { result ≡ record self.now { role = role } }
    {
        let mut repeaters = ArrayVec::new();
        for hop in self.repeaters.as_slice() {
            repeaters.push(*hop);
        }
        Path {
            dest: self.dest,
            source: self.source,
            repeaters,
            role,
        }
    }
}

/// The path back to the frame's source: its ends swapped, its repeaters in reverse order with their H
/// bits clear, and the role that is given.
pub fn reversed(path: &Path, role: Role) -> Path
    ensures { result ≡ way_back path.now role }
{
    let mut repeaters = ArrayVec::new();
    let hops = path.repeaters.as_slice();
    for k in 0..hops.len() {
        let hop = hops[hops.len() - 1 - k];
        repeaters.push(Hop {
            call: hop.call,
            done: false,
        });
    }
    Path {
        dest: path.source,
        source: path.dest,
        repeaters,
        role,
    }
}
