//! Why an event is refused.
ghost use Rattle.std.specs.Prelude.{◌≡◌};
ghost use Rattle.link_world.specs.declared.fault.WorldFault.TheVariants.{Memory};
ghost use Rattle.link_world.specs.Held.{world_fault_of};

use link_machine::LinkFault;
use thiserror::Error;
use tnc_base::OutOfMemory;

/// Why an event is refused. The links and the frames in flight are then as they were.
#[derive(Clone, Copy, Debug, PartialEq, Eq, Error)]
pub enum WorldFault {
    /// No frame is in flight towards the end, or none with that index.
    #[error("no such frame is in flight")]
    NothingThere,
    /// The link refuses the request, for another cause than memory.
    #[error("refused by the link: {0}")]
    Link(LinkFault),
    /// SABM, SABME or DISC would be sent while an earlier one of that end, or an answer to one, is in flight. The world
    /// has stopped: every later event is refused so.
    #[error("event {index} enters a channel that is not quiet")]
    NotQuiet {
        /// The number of the event, all calls counted from 1.
        index: u64,
    },
    /// Memory was not given.
    #[error("out of memory")]
    Memory,
}

impl From<LinkFault> for WorldFault {
    ghost from_gives = { λ fault made. made ≡ world_fault_of fault };

    fn from(fault: LinkFault) -> WorldFault {
        match fault {
            LinkFault::Memory => WorldFault::Memory,
            other => WorldFault::Link(other),
        }
    }
}

impl From<OutOfMemory> for WorldFault {
    ghost from_gives = { λ _ made. made ≡ Memory };

    fn from(_: OutOfMemory) -> WorldFault {
        WorldFault::Memory
    }
}
