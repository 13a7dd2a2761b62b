//! Where a station takes its memory.
ghost use Rattle.std.specs.Prelude.{◌≡◌, [], ◌∷◌, ◌++◌, Ok, true, false, IfOk, OnOk, OnErr};

use std::alloc::Global;
use tnc_base::{Octets, OutOfMemory};

/// An allocator, and whether it has refused. Every growth of a station's calls is told to the memory that they are
/// lent, so none of them answers want of memory for another cause.
#[derive(Drop)]
pub struct Memory {
    alloc: Global,
    refused: bool,
}

impl Memory {
    /// Memory that has refused nothing.
    pub fn new(alloc: Global) -> Memory
        ensures { result.refused ≡ false }
    {
        Memory {
            alloc,
            refused: false,
        }
    }

    /// Where it comes from.
    pub(crate) fn alloc(&self) -> Global {
        self.alloc
    }

    /// Whether it has refused.
    pub(crate) fn has_refused(&self) -> bool
        ensures { result ≡ self.now.refused }
    {
        self.refused
    }

    /// What a growth answered.
    pub fn took<T, E: Drop>(&mut self, answer: Result<T, E>) -> Result<T, OutOfMemory>
        ensures value { IfOk result (λ value. answer ≡ Ok value) }
        ensures wanted { OnErr result (self.new.refused ≡ true) }
    {
        match answer {
            Ok(value) => Ok(value),
            Err(_) => {
                self.refused = true;
                Err(OutOfMemory)
            }
        }
    }

    /// Puts an item after the others.
    pub fn push<T: Drop>(&mut self, items: &mut Vec<T>, item: T) -> Result<(), OutOfMemory>
        ensures items { OnOk result (items.new.items ≡ items.old.items ++ item ∷ []) }
        ensures wanted { OnErr result (self.new.refused ≡ true) }
    {
        self.took(items.push(item))
    }

    /// The same octets, to be changed.
    pub(crate) fn list(&mut self, octets: &[u8]) -> Result<Vec<u8>, OutOfMemory>
        ensures items { IfOk result (λ list. list.items ≡ octets.now) }
        ensures wanted { OnErr result (self.new.refused ≡ true) }
    {
        let list = octets.to_vec(self.alloc);
        self.took(list)
    }

    /// A list of the same octets.
    pub fn copy(&mut self, octets: &[u8]) -> Result<Octets, OutOfMemory>
        ensures copy { IfOk result (λ copy. copy ≡ octets.now) }
        ensures wanted { OnErr result (self.new.refused ≡ true) }
    {
        let copy = Octets::from_slice(self.alloc, octets);
        self.took(copy)
    }

    /// A call that ended well wants for nothing.
    pub(crate) fn settle(&mut self)
        ensures { self.new.refused ≡ false }
    {
        self.refused = false;
    }
}
