//! Why frames are no transmission.
ghost use Rattle.std.specs.Prelude.{◌≡◌};
ghost use Rattle.afsk_modulator.specs.declared.fault.ModFault.TheVariants.{Memory};

use std::alloc::AllocError;
use thiserror::Error;
use tnc_base::OutOfMemory;

/// Why frames were not sent.
#[derive(Clone, Copy, Debug, PartialEq, Eq, Error)]
pub enum ModFault {
    /// Fewer than two flags open the transmission, or none closes it.
    #[error("too few flags")]
    FewFlags,
    /// The frame at `index`, the first such, has fewer than 15 or more than 1024 octets.
    #[error("frame {index} has a bad length")]
    BadLength { index: usize },
    /// Want of memory.
    #[error("out of memory")]
    Memory,
}

impl From<OutOfMemory> for ModFault {
    ghost from_gives = { λ _ fault. fault ≡ Memory };

    fn from(_: OutOfMemory) -> ModFault {
        ModFault::Memory
    }
}

impl From<AllocError> for ModFault {
    ghost from_gives = { λ _ fault. fault ≡ Memory };

    fn from(_: AllocError) -> ModFault {
        ModFault::Memory
    }
}
