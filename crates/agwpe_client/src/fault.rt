//! Why an octet of the host gives nothing.

use thiserror::Error;
use tnc_base::OutOfMemory;

/// Why an octet of the host gives nothing.
#[derive(Clone, Copy, Debug, PartialEq, Eq, Error)]
pub enum ClientFault {
    /// With this octet the host has refused the registration or the call.
    #[error("the call is refused")]
    Refused,
    /// This octet ends a header that tells a body of `len` octets, which are over 4096.
    #[error("a body of {len} octets is too long")]
    Broken { len: u32 },
    /// The call was over before this octet.
    #[error("the call is over")]
    Over,
    /// Memory was wanted and not given. The octet was not taken.
    #[error("out of memory")]
    Memory,
}

impl From<OutOfMemory> for ClientFault {
    ghost use Rattle.std.specs.Prelude.{◌≡◌};
    ghost use Rattle.agwpe_client.specs.declared.fault.ClientFault.TheVariants.{Memory};

    ghost from_gives = { λ _ fault. fault ≡ Memory };

    fn from(_: OutOfMemory) -> ClientFault {
        ClientFault::Memory
    }
}
