//! A list of octets, such as a frame or a packet: what it holds is all that a contract sees of it.
ghost use Rattle.std.specs.Prelude.{◌≡◌, ◌<◌, ◌^◌, ◌==◌, All, IfOk, length};

use crate::OutOfMemory;
use std::alloc::Global;
use std::marker::Model;

/// Octets in order, owned and never changed. Contracts see the list itself.
#[derive(Clone, Debug, Drop)]
pub struct Octets {
    octets: Vec<u8>,
}

impl Model for Octets {
    ghost use Rattle.std.specs.Prelude.{ℕ, ◌<◌, List, All};

    ghost Value = { List ℕ };

    ghost view = { λ inside. inside.octets.items };

    ghost invariant = { λ inside. All (λ octet. octet < 256) inside.octets.items };
}

impl Octets {
    /// A copy of `octets`.
    pub fn from_slice(alloc: Global, octets: &[u8]) -> Result<Octets, OutOfMemory>
        ensures { IfOk result (λ list. list ≡ octets.now) }
    {
        Ok(Octets {
            octets: octets.to_vec(alloc)?,
        })
    }

    /// The octets, first to last.
    pub fn as_slice(&self) -> &[u8]
        ensures list { result.now ≡ self.now }
        ensures range { All (λ octet. octet < 256) self.now }
    {
        &self.octets
    }

    /// How many octets there are.
    pub fn len(&self) -> usize
        ensures count { result ≡ length self.now }
        ensures bound { length self.now < 2 ^ 64 }
    {
        self.octets.len()
    }

    /// True if there is no octet.
    pub fn is_empty(&self) -> bool
        ensures { result ≡ (length self.now == 0) }
    {
        self.octets.is_empty()
    }
}
