//! Why a stream of messages is not read further.

use thiserror::Error;
use tnc_base::OutOfMemory;

/// Why an octet gives no message and will never belong to one, or was not taken.
#[derive(Clone, Copy, Debug, PartialEq, Eq, Error)]
pub enum AgwFault {
    /// The octet ends a header that tells a body of `len` octets, which are over 4096.
    #[error("a body of {len} octets is too long")]
    BadLength { len: u32 },
    /// A header before this octet told a body of `len` octets, which are over 4096.
    #[error("a body of {len} octets was too long")]
    Failed { len: u32 },
    /// Memory was wanted and not given. The octet was not taken.
    #[error("out of memory")]
    Memory,
}

impl From<OutOfMemory> for AgwFault {
    ghost use Rattle.std.specs.Prelude.{◌≡◌};
    ghost use Rattle.agwpe_port.specs.declared.fault.AgwFault.TheVariants.{Memory};

    ghost from_gives = { λ _ fault. fault ≡ Memory };

    fn from(_: OutOfMemory) -> AgwFault {
        AgwFault::Memory
    }
}
