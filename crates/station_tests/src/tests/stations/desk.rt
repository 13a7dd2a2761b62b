//! A station to be tried by its public calls, and what it gave.
ghost use Rattle.std.specs.Prelude.{◌≡◌, ◌≢◌, ◌==◌, not, filter, IsTrue, All, Any};
ghost use Rattle.std.specs.Bool.{IsFalse};
ghost use Rattle.station.specs.Held.{ids_of, without_ids};

use crate::{message, message_with_pid};
use ax25_address::Call;
use ax25_frames::Modulus;
use link_machine::Params;
use station::{Config, HostEvent, HostOut, PortKind, Station};
use std::alloc::{AllocError, Global};
use std::marker::Model;
use std::mem;
use std::test::Fail;
use tnc_base::Octets;

/// A station with the AGWPE connections 1 and 2 and the KISS connection 3, and what it gave.
#[derive(Drop)]
pub(super) struct Desk {
    alloc: Global,
    station: Station,
    /// The connections that are there.
    there: Vec<u32>,
    /// A call of the station failed, or has not ended. Connections then give it nothing more.
    failed: bool,
    out: HostOut,
}

// No test needs a fact about a desk, so its value shows none. Each test is then proved several times faster.
impl Model for Desk {
    ghost use Rattle.std.specs.Prelude.{◌≡◌, ⊤};
    ghost use Rattle.std.specs.Bool.{IsFalse};
    ghost use Rattle.station.specs.Held.{ids_of};

    ghost Value = { ⊤ };

    ghost view = { λ _. tt };

    ghost invariant = { λ s. IsFalse s.failed → ids_of s.station ≡ s.there.items };
}

impl Desk {
    /// In a box, so that each test that owns a desk is proved several times faster.
    pub(super) fn new(alloc: Global, params: Params) -> Result<Box<Desk>, Fail> {
        Desk::with_digipeater(alloc, params, None)
    }

    /// The same, and the station repeats by this call.
    pub(super) fn with_digipeater(
        alloc: Global,
        params: Params,
        digi: Option<Call>,
    ) -> Result<Box<Desk>, Fail> {
        Desk::made_with(alloc, Config::new(params, digi))
    }

    /// The same, and the station is made with all of this.
    pub(super) fn made_with(alloc: Global, config: Config) -> Result<Box<Desk>, Fail> {
        let desk = Desk {
            alloc,
            station: Station::new(alloc, config, 7)?,
            there: Vec::new(alloc),
            failed: false,
            out: nothing(alloc),
        };
        let mut desk = Box::new(alloc, desk)?;
        desk.join_all()?;
        Ok(desk)
    }

    /// Each of the three connections joins, if it is not there.
    pub(super) fn join_all(&mut self) -> Result<(), Fail> {
        self.join(1, PortKind::Agw)?;
        self.join(2, PortKind::Agw)?;
        self.join(3, PortKind::Kiss)
    }

    /// A connection joins, if no other one has the id.
    pub(super) fn join(&mut self, id: u32, kind: PortKind) -> Result<(), Fail> {
        if self.failed || is_among(&self.there, id) {
            return Ok(());
        }
        self.failed = true;
        let out = self.station.host(HostEvent::Joined { id, kind })?;
        self.there.push(id)?;
        leave_all(&mut self.there, &out.closed);
        self.failed = false;
        Ok(add(&mut self.out, out)?)
    }

    /// Octets of a connection, if it is there.
    pub(super) fn take(&mut self, id: u32, octets: &[u8]) -> Result<(), Fail> {
        if self.failed || !is_among(&self.there, id) {
            return Ok(());
        }
        let octets = Octets::from_slice(self.alloc, octets)?;
        if octets.len() > 4096 || !self.station.accepts(id) {
            return Err(Fail::new("the octets are not accepted"));
        }
        self.failed = true;
        let out = self.station.host(HostEvent::Bytes { id, octets })?;
        leave_all(&mut self.there, &out.closed);
        self.failed = false;
        Ok(add(&mut self.out, out)?)
    }

    /// A connection leaves, if it is there.
    pub(super) fn leave(&mut self, id: u32) -> Result<(), Fail> {
        if self.failed || !is_among(&self.there, id) {
            return Ok(());
        }
        self.failed = true;
        let out = self.station.host(HostEvent::Left { id })?;
        leave(&mut self.there, id);
        add(&mut self.out, out)?;
        self.failed = false;
        Ok(())
    }

    /// A connection registers a call.
    pub(super) fn register(&mut self, id: u32, call: &str) -> Result<(), Fail> {
        self.ask(id, b'X', [call, ""], b"")
    }

    /// A connection calls from one call to another.
    pub(super) fn call(&mut self, id: u32, from: &str, to: &str) -> Result<(), Fail> {
        self.ask(id, b'C', [from, to], b"")
    }

    /// A message of a connection.
    pub(super) fn ask(
        &mut self,
        id: u32,
        kind: u8,
        ends: [&str; 2],
        body: &[u8],
    ) -> Result<(), Fail> {
        self.ask_with_pid(id, (kind, 0), ends, body)
    }

    /// A message of a connection, of a kind and a PID.
    pub(super) fn ask_with_pid(
        &mut self,
        id: u32,
        kind: (u8, u8),
        ends: [&str; 2],
        body: &[u8],
    ) -> Result<(), Fail> {
        let octets = message_with_pid(self.alloc, kind, ends, body)?;
        self.take(id, &octets)
    }

    /// A frame that is heard, if it has the length of one.
    pub(super) fn hear(&mut self, octets: &[u8]) -> Result<(), Fail> {
        if octets.len() < 15 || octets.len() > 1024 {
            return Ok(());
        }
        let failed = mem::replace(&mut self.failed, true);
        let out = self.station.heard(octets)?;
        self.failed = failed;
        Ok(add(&mut self.out, out)?)
    }

    /// So many ticks, and the frames that are sent in them.
    pub(super) fn tick(&mut self, count: usize) -> Result<Vec<u8>, Fail> {
        let mut sent = Vec::new(self.alloc);
        for _ in 0..count {
            self.tick_once(&mut sent)?;
        }
        Ok(sent)
    }

    fn tick_once(&mut self, sent: &mut Vec<u8>) -> Result<(), Fail> {
        let failed = mem::replace(&mut self.failed, true);
        let tick = self.station.tick(false)?;
        self.failed = failed;
        if let Some(frame) = &tick.air.sent {
            sent.extend_from_slice(frame.octets.as_slice())?;
        }
        Ok(add(&mut self.out, tick.out)?)
    }

    /// In full duplex, with one flag round each frame.
    pub(super) fn send_at_once(&mut self) -> Result<(), Fail> {
        self.take(3, b"\xc0\x01\0\xc0\x04\0\xc0\x05\x01\xc0")
    }

    /// The modulus in which a frame between two calls is read.
    pub(super) fn modulus(&self, first: &Call, second: &Call) -> Modulus {
        self.station.modulus(first, second)
    }

    /// What makes room for octets.
    pub(super) fn alloc(&self) -> Global {
        self.alloc
    }

    /// What it gave since the last look.
    pub(super) fn out(&self) -> &HostOut {
        &self.out
    }

    /// How many connections are there.
    pub(super) fn count(&self) -> usize {
        self.there.len()
    }

    /// The same, and no later look finds it.
    pub(super) fn look(&mut self) -> HostOut {
        let out = nothing(self.alloc);
        mem::replace(&mut self.out, out)
    }

    /// The octets for connections since the last look.
    pub(super) fn told(&mut self) -> Result<Vec<u8>, Fail> {
        let pieces = self.look().pieces;
        let mut octets = Vec::new(self.alloc);
        for piece in &pieces {
            octets.extend_from_slice(piece.octets.as_slice())?;
        }
        Ok(octets)
    }

    /// Whether the octets since the last look end with a message.
    pub(super) fn tells(&mut self, kind: u8, ends: [&str; 2], body: &[u8]) -> Result<bool, Fail> {
        let want = message(self.alloc, kind, ends, body)?;
        let told = self.told()?;
        Ok(told.ends_with(&want))
    }

    /// How many link frames were queued since the last look.
    pub(super) fn frames(&mut self) -> usize {
        self.look().queued.len()
    }

    /// How long the link frames since the last look are.
    pub(super) fn lens(&mut self) -> Result<Vec<usize>, Fail> {
        let frames = self.look().queued;
        let mut lens = Vec::new(self.alloc);
        for frame in &frames {
            lens.push(frame.len())?;
        }
        Ok(lens)
    }
}

/// So many times an octet.
pub(super) fn filled(alloc: Global, octet: u8, len: usize) -> Result<Vec<u8>, Fail> {
    let mut octets = Vec::new(alloc);
    for _ in 0..len {
        octets.push(octet)?;
    }
    Ok(octets)
}

fn nothing(alloc: Global) -> HostOut {
    HostOut {
        pieces: Vec::new(alloc),
        closed: Vec::new(alloc),
        queued: Vec::new(alloc),
    }
}

/// What one more call gave.
fn add(all: &mut HostOut, mut out: HostOut) -> Result<(), AllocError> {
    all.pieces.append(&mut out.pieces)?;
    all.closed.append(&mut out.closed)?;
    all.queued.append(&mut out.queued)
}

/// The id is one of these.
fn is_among(ids: &[u32], id: u32) -> bool
    ensures some { IsTrue result → Any (λ other. other ≡ id) ids.now }
    ensures none { IsFalse result → All (λ other. other ≢ id) ids.now }
{
    ids.contains(&id)
}

/// The connections that are closed are there no longer.
fn leave_all(there: &mut Vec<u32>, closed: &[u32])
    ensures { there.new.items ≡ without_ids closed.now there.old.items }
{
    for id in closed {
        leave(there, *id);
    }
}

/// The connection is there no longer.
fn leave(there: &mut Vec<u32>, id: u32)
    ensures { there.new.items ≡ filter (λ other. not (other == id)) there.old.items }
{
    there.retain(|other| *other != id);
}
