//! Why the octets of a host's connection are not read further.

use thiserror::Error;
use tnc_base::OutOfMemory;

/// Why an octet of a host's connection gives no item, or was not taken.
#[derive(Clone, Copy, Debug, PartialEq, Eq, Error)]
pub enum KissFault {
    /// The connection is a program's of the web: with this octet or before it, its octets begin as such a program's do.
    #[error("a request of the web")]
    WebRequest,
    /// Memory was wanted and not given. The octet was not taken.
    #[error("out of memory")]
    Memory,
}

impl From<OutOfMemory> for KissFault {
    ghost use Rattle.std.specs.Prelude.{◌≡◌};
    ghost use Rattle.kiss_port.specs.declared.fault.KissFault.TheVariants.{Memory};

    ghost from_gives = { λ _ fault. fault ≡ Memory };

    fn from(_: OutOfMemory) -> KissFault {
        KissFault::Memory
    }
}
