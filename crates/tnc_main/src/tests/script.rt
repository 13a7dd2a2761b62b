//! What the live station of a call brings, poll by poll.
use station::HostEvent;
use std::alloc::Global;
use std::marker::Model;
use std::test::Fail;
use tnc_base::{Octets, OutOfMemory};
use tnc_ports::MemLive;

/// The connection of a call.
const ID: u32 = 1;

/// The most octets of an event.
const MOST: usize = 17;

/// A script that grows poll by poll.
#[derive(Drop)]
pub(super) struct Script {
    alloc: Global,
    events: Vec<(u64, HostEvent)>,
    polls: u64,
}

// No test needs a fact about a script, so its value shows none. Each test is then proved faster.
impl Model for Script {
    ghost use Rattle.std.specs.Prelude.{⊤, All};
    ghost use Rattle.host_ports.specs.Sockets.{IsWholePiece};

    ghost Value = { ⊤ };

    ghost view = { λ _. tt };

    ghost invariant = { λ s. All (λ entry. IsWholePiece entry.1) s.events.items };
}

impl Script {
    pub(super) fn new(alloc: Global) -> Script {
        Script {
            alloc,
            events: Vec::new(alloc),
            polls: 0,
        }
    }

    /// The station brings octets at the next poll, in pieces.
    pub(super) fn brings(&mut self, octets: &[u8]) -> Result<(), OutOfMemory> {
        for piece in octets.chunks(MOST) {
            self.brings_piece(piece)?;
        }
        self.polls = self.polls.saturating_add(1);
        Ok(())
    }

    fn brings_piece(&mut self, octets: &[u8]) -> Result<(), OutOfMemory> {
        if octets.is_empty() || octets.len() > MOST {
            return Err(OutOfMemory);
        }
        let octets = Octets::from_slice(self.alloc, octets)?;
        self.events
            .push((self.polls, HostEvent::Bytes { id: ID, octets }))?;
        Ok(())
    }

    /// It closes the connection at the next poll.
    pub(super) fn leaves(&mut self) -> Result<(), OutOfMemory> {
        self.events.push((self.polls, HostEvent::Left { id: ID }))?;
        Ok(())
    }

    /// Sockets that give the script, and fail at the call of a number.
    pub(super) fn failing(self, call: u64) -> Result<Box<MemLive>, OutOfMemory> {
        let failing = [call].to_vec(self.alloc)?;
        let live = MemLive::new(self.alloc, self.events, failing);
        Ok(Box::new(self.alloc, live)?)
    }
}
