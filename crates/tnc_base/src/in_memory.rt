//! A source and a sink over memory. They tell their octets, and fail at the calls that they are told to fail at.
ghost use Rattle.std.specs.Prelude.{◌≡◌, ◌⊎◌, ◌↔◌, ◌<◌, ◌≤◌, ◌+◌, ◌++◌, length, take, drop, min, Contains};
ghost use Rattle.std.specs.Prelude.{[], IfOk, OnErr, IsErr, is_ok, if◌then◌else◌, Some};
ghost use Rattle.tnc_base.specs.Faults.{next_count};
ghost use Rattle.tnc_base.specs.InMemory.{new_source, new_sink};

use crate::{Failed, OutOfMemory, Sink, Source};
use std::alloc::Global;
use std::marker::Model;

/// Octets in memory, read in pieces.
#[derive(Debug, Drop)]
pub struct MemSource {
    octets: Vec<u8>,
    at: usize,
    piece: usize,
    failing: Vec<u64>,
    calls: u64,
    faults: u64,
}

impl Model for MemSource {
    ghost use Rattle.std.specs.Prelude.{◌≤◌, ◌<◌, length, drop};
    ghost use Rattle.tnc_base.specs.InMemory.{SourceView};

    ghost Value = { SourceView };

    ghost view = { λ s. record {
      left = drop s.at s.octets.items;
      piece = s.piece;
      failing = s.failing.items;
      calls = s.calls;
      faults = s.faults;
    } };

    ghost invariant = { λ s. (s.at ≤ length s.octets.items) × (0 < s.piece) };
}

impl MemSource {
    /// A source of `octets` that gives at most `piece` of them a call and fails the calls whose numbers, from 0, are
    /// in `failing`.
    pub fn new(octets: Vec<u8>, piece: usize, failing: Vec<u64>) -> MemSource
        requires { 0 < piece }
        ensures { result ≡ new_source octets.items piece failing.items }
    {
        MemSource {
            octets,
            at: 0,
            piece,
            failing,
            calls: 0,
            faults: 0,
        }
    }
}

impl Source for MemSource {
    ghost told = { λ s. record { left = Some s.left; faults = s.faults } };

    fn read(&mut self, buffer: &mut [u8]) -> Result<usize, Failed>
        ensures fails { IsErr result ↔ Contains self.old.failing self.old.calls }
        ensures count { IfOk result (λ count. count
            ≡ min (length buffer.new) (min self.old.piece (length self.old.left))) }
        ensures front { IfOk result (λ count. take count buffer.new ≡ take count self.old.left) }
        ensures rest { IfOk result (λ count. self.new.left ≡ drop count self.old.left) }
        ensures end { IfOk result (λ count. count ≡ 0 → 0 < length buffer.new → self.old.left ≡ []) }
        ensures kept { OnErr result (self.new.left ≡ self.old.left) }
        ensures piece { self.new.piece ≡ self.old.piece }
        ensures failing { self.new.failing ≡ self.old.failing }
        ensures calls { self.new.calls ≡ next_count self.old.calls }
        ensures later { self.old.faults ≤ self.new.faults }
        ensures faults { self.new.faults
            ≡ (if is_ok result then self.old.faults else next_count self.old.faults) }
    {
        let fails = self.failing.contains(&self.calls);
        self.calls = self.calls.saturating_add(1);
        if fails {
            self.faults = self.faults.saturating_add(1);
            return Err(Failed);
        }
        let rest = &self.octets[self.at..];
        let count = buffer.len().min(self.piece.min(rest.len()));
        buffer[..count].copy_from_slice(&rest[..count]);
        self.at += count;
        Ok(count)
    }
}

/// A sink that keeps what is written, up to a limit that is fixed as it is made.
#[derive(Debug, Drop)]
pub struct MemSink {
    room: usize,
    octets: Vec<u8>,
    failing: Vec<u64>,
    calls: u64,
    faults: u64,
}

impl Model for MemSink {
    ghost use Rattle.std.specs.Prelude.{◌≤◌, length, vec_capacity};
    ghost use Rattle.tnc_base.specs.InMemory.{SinkView};

    ghost Value = { SinkView };

    ghost view = { λ s. record {
      room = s.room;
      written = s.octets.items;
      failing = s.failing.items;
      calls = s.calls;
      faults = s.faults;
    } };

    ghost invariant = { λ s. (length s.octets.items ≤ s.room) × (s.room ≤ vec_capacity s.octets) };
}

impl MemSink {
    /// An empty sink for `room` octets, which it takes now. A write that passes the room fails and appends nothing, and
    /// so does each call whose number, from 0, is in `failing`.
    pub fn new(alloc: Global, room: usize, failing: Vec<u64>) -> Result<MemSink, OutOfMemory>
        ensures { IfOk result (λ sink. sink ≡ new_sink room failing.items) }
    {
        Ok(MemSink {
            room,
            octets: Vec::with_capacity(alloc, room)?,
            failing,
            calls: 0,
            faults: 0,
        })
    }

    /// What was written.
    pub fn written(&self) -> &[u8]
        ensures { result.now ≡ self.now.written }
    {
        &self.octets
    }
}

impl Sink for MemSink {
    ghost told = { λ s. record { written = Some s.written; faults = s.faults } };

    fn write(&mut self, octets: &[u8]) -> Result<(), Failed>
        ensures fails { IsErr result ↔ (Contains self.old.failing self.old.calls
            ⊎ (self.old.room < length self.old.written + length octets.now)) }
        ensures written { self.new.written
            ≡ (if is_ok result then self.old.written ++ octets.now else self.old.written) }
        ensures room { self.new.room ≡ self.old.room }
        ensures failing { self.new.failing ≡ self.old.failing }
        ensures calls { self.new.calls ≡ next_count self.old.calls }
        ensures later { self.old.faults ≤ self.new.faults }
        ensures faults { self.new.faults
            ≡ (if is_ok result then self.old.faults else next_count self.old.faults) }
    {
        let fails = self.failing.contains(&self.calls)
            || self.room - self.octets.len() < octets.len();
        self.calls = self.calls.saturating_add(1);
        if fails || self.octets.extend_from_slice(octets).is_err() {
            self.faults = self.faults.saturating_add(1);
            return Err(Failed);
        }
        Ok(())
    }
}
