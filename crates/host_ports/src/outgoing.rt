//! What waits to be sent to a connection.
//!
//! A host program may break if a message comes to it in two reads, or two messages in one. So a connection keeps the
//! borders of the pieces that it is to be sent: it offers the rest of the front piece, and no octet of the next one.
//! The octets stand in a ring that is taken when the connection joins, so a host that stops reading takes no more
//! memory than one that goes on.
ghost use Rattle.std.specs.Prelude.{◌≡◌, ℕ, ◌+◌, ◌<◌, ◌≤◌, ◌↔◌, ◌++◌, ◌==◌, [], length, take, IfOk, OnOk, OnErr};
ghost use Rattle.std.specs.Prelude.{IsErrOf};
ghost use Rattle.host_ports.specs.Waiting.{most_octets, octets_of, with_piece, front_of, after_sending};

use circular_buffer::HeapCircularBuffer;
use std::alloc::{AllocFailed, Global};
use std::collections::VecDeque;
use std::marker::Model;
use thiserror::Error;
use tnc_base::OutOfMemory;

/// The most octets that wait for one connection.
const MOST_OCTETS: usize = 262_144;

/// Why a piece is not appended. Nothing of it is.
#[derive(Clone, Copy, Debug, PartialEq, Eq, Error)]
pub enum AppendFault {
    /// It does not fit beside what waits.
    #[error("more than 262,144 octets would wait")]
    Full,
    /// Want of memory.
    #[error("out of memory")]
    Memory,
}

impl From<AllocFailed<usize>> for AppendFault {
    ghost use Rattle.host_ports.specs.declared.outgoing.AppendFault.TheVariants.{Memory};

    ghost from_gives = { λ _ fault. fault ≡ Memory };

    fn from(_: AllocFailed<usize>) -> AppendFault {
        AppendFault::Memory
    }
}

/// The pieces that wait for a connection. Contracts see their list, the front one without what is sent of it.
#[derive(Drop)]
pub struct Outgoing {
    octets: HeapCircularBuffer<u8>,
    lens: VecDeque<usize>,
}

impl Model for Outgoing {
    ghost use Rattle.std.specs.Prelude.{◌≡◌, ℕ, ◌<◌, ◌≤◌, List, All, length, sum};
    ghost use Rattle.host_ports.specs.Waiting.{most_octets, cut};

    ghost Value = { List (List ℕ) };

    ghost view = { λ s. cut s.lens.items s.octets.items };

    ghost invariant = { λ s. (sum s.lens.items ≡ length s.octets.items)
        × All (λ len. 0 < len) s.lens.items
        × (s.octets.capacity ≡ most_octets)
        × (length s.octets.items ≤ most_octets) };
}

impl Outgoing {
    /// Nothing waits. The room for all octets is taken now.
    pub fn new(alloc: Global) -> Result<Outgoing, OutOfMemory>
        ensures { IfOk result (λ made. made ≡ []) }
    {
        Ok(Outgoing {
            octets: HeapCircularBuffer::with_capacity(alloc, MOST_OCTETS)?,
            lens: VecDeque::new(alloc),
        })
    }

    /// Appends a whole piece, or nothing of it. A piece without octets fits and asks for nothing.
    pub fn append(&mut self, piece: &[u8]) -> Result<(), AppendFault>
        ensures appended { OnOk result (self.new ≡ with_piece piece.now self.old) }
        ensures full { IsErrOf result AppendFault.Full
            ↔ (most_octets < length (octets_of self.old) + length piece.now) }
        ensures refused { OnErr result (self.new ≡ self.old) }
    {
        if MOST_OCTETS - self.octets.len() < piece.len() {
            return Err(AppendFault::Full);
        }
        if piece.is_empty() {
            return Ok(());
        }
        self.lens.push_back(piece.len())?;
        self.octets.fill_from_slice(piece);
        Ok(())
    }

    /// True if nothing waits.
    pub fn is_empty(&self) -> bool
        ensures { result ≡ (length self.now == 0) }
    {
        self.lens.is_empty()
    }

    /// The rest of the front piece, in two parts that follow one another. Nothing, if nothing waits.
    pub fn front(&self) -> (&[u8], &[u8])
        ensures rest { result.0.now ++ result.1.now ≡ front_of self.now }
    {
        let len = self.front_len();
        let (first, second) = self.octets.as_slices();
        if len <= first.len() {
            (&first[..len], &second[..0])
        } else {
            (first, &second[..len - first.len()])
        }
    }

    /// So many octets of the front piece are sent. One of which nothing is left gives way to the next.
    pub fn advance(&mut self, count: usize)
        requires { count ≤ length (front_of self.old) }
        ensures sent { self.new ≡ after_sending count self.old }
        ensures octets { octets_of self.old ≡ take count (octets_of self.old) ++ octets_of self.new }
    {
        let len = self.front_len();
        self.octets.truncate_front(self.octets.len() - count);
        if count == len {
            self.lens.pop_front();
        } else if let Some(rest) = self.lens.front_mut() {
            *rest = len - count;
        }
    }

    fn front_len(&self) -> usize
        ensures { result ≡ length (front_of self.now) }
    {
        match self.lens.front() {
            Some(len) => *len,
            None => 0,
        }
    }
}
