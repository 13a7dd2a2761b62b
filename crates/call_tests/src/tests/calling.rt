//! A call from its text to its end, over sockets in memory.

use super::octets::{
    CALL, CONNECTED, ENDED, LEAVE, NOT_REGISTERED, REGISTER, REGISTERED, SAYS_HI, TEXT, TOO_LONG,
};
use super::words::words;
use crate::assertions::assert_equal;
use host_ports::MemPorts;
use station::HostEvent;
use std::alloc::Global;
use std::marker::Model;
use std::net::Net;
use std::test::Fail;
use tnc_base::{MemSink, MemSource, Octets, OutOfMemory};
use tnc_call::{CallEnd, call};
use tnc_ports::MemLive;

/// The most octets of an event.
const MOST: usize = 17;

/// A script that grows event by event.
#[derive(Drop)]
struct Script {
    alloc: Global,
    events: Vec<(u64, HostEvent)>,
}

// No test needs a fact about a script, so its value shows none. Each test is then proved faster.
impl Model for Script {
    ghost use Rattle.std.specs.Prelude.{⊤, All};
    ghost use Rattle.host_ports.specs.Sockets.{IsWholePiece};

    ghost Value = { ⊤ };

    ghost view = { λ _. tt };

    ghost invariant = { λ s. All (λ entry. IsWholePiece entry.1) s.events.items };
}

impl Script {
    /// At the poll of a number the host brings octets, in pieces.
    fn brings(&mut self, poll: u64, octets: &[u8]) -> Result<(), OutOfMemory> {
        for piece in octets.chunks(MOST) {
            self.brings_piece(poll, piece)?;
        }
        Ok(())
    }

    fn brings_piece(&mut self, poll: u64, octets: &[u8]) -> Result<(), OutOfMemory> {
        if octets.is_empty() || octets.len() > MOST {
            return Err(OutOfMemory);
        }
        let octets = Octets::from_slice(self.alloc, octets)?;
        self.events
            .push((poll, HostEvent::Bytes { id: 1, octets }))?;
        Ok(())
    }

    /// It leaves.
    fn leaves(&mut self, poll: u64) -> Result<(), OutOfMemory> {
        self.events.push((poll, HostEvent::Left { id: 1 }))?;
        Ok(())
    }

    /// Sockets that give the script, and fail at the calls of these numbers. In a box, so that each test that owns them
    /// is proved faster.
    fn failing(self, calls: &[u64]) -> Result<Box<MemLive>, OutOfMemory> {
        let failing = calls.to_vec(self.alloc)?;
        let live = MemLive::new(self.alloc, self.events, failing);
        Ok(Box::new(self.alloc, live)?)
    }
}

/// The script of a host that sends one message a poll, whole or octet by octet, and then leaves or stays.
fn scripted(
    alloc: Global,
    host: &[&[u8]],
    octet_by_octet: bool,
    leaves: bool,
) -> Result<Script, OutOfMemory> {
    let mut script = Script {
        alloc,
        events: Vec::new(alloc),
    };
    let mut poll = 0;
    for message in host {
        if octet_by_octet {
            for octet in *message {
                script.brings(poll, &[*octet])?;
                poll = poll.saturating_add(1);
            }
        } else {
            script.brings(poll, message)?;
            poll = poll.saturating_add(1);
        }
    }
    if leaves {
        script.leaves(poll)?;
    }
    Ok(script)
}

/// What a call printed and what the host took.
#[derive(Drop)]
struct Outcome {
    end: CallEnd,
    printed: Vec<u8>,
    sent: Vec<u8>,
}

// No test needs a fact about an outcome, so its value shows none. Each test is then proved faster.
impl Model for Outcome {
    ghost use Rattle.std.specs.Prelude.{⊤};

    ghost Value = { ⊤ };

    ghost view = { λ _. tt };
}

/// A call with the text `abc`.
fn called<R: Net>(
    rt: &R,
    alloc: Global,
    polls: u32,
    ports: &mut MemPorts,
) -> Result<Box<Outcome>, OutOfMemory> {
    let mut input = MemSource::new(b"abc".to_vec(alloc)?, 2, Vec::new(alloc));
    let mut output = MemSink::new(alloc, 100, Vec::new(alloc))?;
    let end = call(
        rt,
        alloc,
        words(false, 0, polls),
        &mut input,
        &mut output,
        ports,
    );
    let mut sent = Vec::new(alloc);
    for send in ports.sends() {
        sent.extend_from_slice(send.octets.as_slice())?;
    }
    let outcome = Outcome {
        end,
        printed: output.written().to_vec(alloc)?,
        sent,
    };
    Ok(Box::new(alloc, outcome)?)
}

/// Each row: what the host sends, whether it then leaves, the calls of the sockets that fail, how many polls are made
/// at most; how the call ends, what it prints, and what the host takes.
type Row<'a> = (
    (&'a [&'a [u8]], bool),
    (&'a [u64], u32),
    CallEnd,
    &'a [u8],
    &'a [&'a [u8]],
);

const WHOLE: &[&[u8]] = &[REGISTERED, CONNECTED, SAYS_HI, ENDED];

const ROWS: &[Row<'static>] = &[
    (
        (WHOLE, false),
        (&[], 1000),
        CallEnd::Done { got: 2 },
        b"hi",
        &[REGISTER, CALL, TEXT, LEAVE],
    ),
    (
        (&[NOT_REGISTERED], false),
        (&[], 1000),
        CallEnd::Refused,
        b"",
        &[REGISTER],
    ),
    (
        (&[REGISTERED, CONNECTED], true),
        (&[], 1000),
        CallEnd::HostLost,
        b"",
        &[REGISTER, CALL, TEXT, LEAVE],
    ),
    (
        (&[], false),
        (&[], 3),
        CallEnd::GaveUp { polls: 3 },
        b"",
        &[REGISTER],
    ),
    ((WHOLE, false), (&[0], 1000), CallEnd::NoHost, b"", &[]),
    // The dial is call 0, the first send call 1 and the first poll call 2, which counts as no events.
    ((WHOLE, false), (&[1], 1000), CallEnd::HostLost, b"", &[]),
    (
        (WHOLE, false),
        (&[2], 1000),
        CallEnd::Done { got: 2 },
        b"hi",
        &[REGISTER, CALL, TEXT, LEAVE],
    ),
    (
        (&[TOO_LONG], false),
        (&[], 1000),
        CallEnd::Broken { len: 4097 },
        b"",
        &[REGISTER],
    ),
];

#[test]
fn ends_by_what_the_host_does(rt: HostRuntime) -> Result<(), Fail> {
    let alloc = rt.alloc();
    for ((host, leaves), (failing, polls), end, printed, sent) in ROWS {
        for octet_by_octet in [false, true] {
            let mut live = scripted(alloc, host, octet_by_octet, *leaves)?.failing(failing)?;
            let got = called(&rt, alloc, *polls, &mut live.ports)?;
            assert_equal(&rt, &got.end, end);
            assert_equal(&rt, &got.printed.as_slice(), printed);
            assert_equal(&rt, &got.sent.as_slice(), &sent.concat(alloc)?.as_slice());
        }
    }
    Ok(())
}
