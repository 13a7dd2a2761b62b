//! Why a call of a link is refused.
ghost use Rattle.std.specs.Prelude.{◌≡◌};
ghost use Rattle.link_machine.specs.declared.fault.LinkFault.TheVariants.{Memory as MemoryFault};

use crate::state::LinkState;
use thiserror::Error;
use tnc_base::OutOfMemory;

/// Why a call is refused. The link is then as it was.
#[derive(Clone, Copy, Debug, PartialEq, Eq, Error)]
pub enum LinkFault {
    /// The link's state takes no such call, or a disconnect was asked for before.
    #[error("not in this state")]
    WrongState {
        /// The state.
        state: LinkState,
        /// Whether a disconnect was asked for.
        quit: bool,
    },
    /// 1024 packets wait to be acknowledged.
    #[error("1024 packets wait")]
    Full,
    /// The packet has `len` octets, which are over 256.
    #[error("a packet of {len} octets")]
    TooLong {
        /// The count of its octets.
        len: usize,
    },
    /// Memory was not given.
    #[error("out of memory")]
    Memory,
}

/// Why a link is not made.
#[derive(Clone, Copy, Debug, PartialEq, Eq, Error)]
pub enum NewFault {
    /// The window does not fit the mode.
    #[error("bad window {window}")]
    BadWindow {
        /// The window.
        window: u8,
    },
    /// Memory was not given.
    #[error("out of memory")]
    Memory,
}

impl From<OutOfMemory> for LinkFault {
    ghost from_gives = { λ _ fault. fault ≡ MemoryFault };

    fn from(_: OutOfMemory) -> LinkFault {
        LinkFault::Memory
    }
}
