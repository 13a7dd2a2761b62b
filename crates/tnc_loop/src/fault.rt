//! Why frames that are looped back are not as they were made.
ghost use Rattle.std.specs.Prelude.{◌≡◌};
ghost use Rattle.tnc_loop.specs.declared.fault.LoopFault.TheVariants.{Memory};

use std::alloc::AllocError;
use thiserror::Error;
use tnc_base::{Octets, OutOfMemory};

/// The faults of `loop`.
#[derive(Debug, Drop, Error)]
pub enum LoopFault {
    /// A candidate with these octets is no frame that was made. The summary was written.
    #[error("a stray candidate")]
    Stray { octets: Octets },
    /// Want of memory. Nothing was written.
    #[error("out of memory")]
    Memory,
    /// The output failed.
    #[error("the output failed")]
    Write,
}

impl From<OutOfMemory> for LoopFault {
    ghost from_gives = { λ _ fault. fault ≡ Memory };

    fn from(_: OutOfMemory) -> LoopFault {
        LoopFault::Memory
    }
}

impl From<AllocError> for LoopFault {
    ghost from_gives = { λ _ fault. fault ≡ Memory };

    fn from(_: AllocError) -> LoopFault {
        LoopFault::Memory
    }
}
