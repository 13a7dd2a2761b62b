//! What a numbered frame carries.
ghost use Rattle.std.specs.Prelude.{◌≡◌, IfOk};

use std::alloc::Global;
use tnc_base::{Octets, OutOfMemory};

/// What an I frame carries: its protocol identifier and its information.
#[derive(Debug, Drop)]
pub struct Packet {
    /// The protocol identifier (AX.25 2.2 section 3.4), as F0 for no layer 3.
    pub pid: u8,
    /// The information.
    pub octets: Octets,
}

impl Packet {
    /// The same packet, in memory of its own.
    pub fn copy(&self, alloc: Global) -> Result<Packet, OutOfMemory>
        ensures { IfOk result (λ copy. copy ≡ self.now) }
    {
        Ok(Packet {
            pid: self.pid,
            octets: Octets::from_slice(alloc, self.octets.as_slice())?,
        })
    }
}
