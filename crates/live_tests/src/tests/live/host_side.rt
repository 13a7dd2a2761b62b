//! The hosts' side of a station, turn by turn.
ghost use Rattle.hdlc_framer.specs.FrameLength.{HasFrameLength};

use super::script::{Script, came};
use crate::assertions::assert_equal;
use host_ports::{HostSide, ReportLine};
use link_machine::Params;
use station::{Config, PortKind};
use station_tests::message;
use std::alloc::Global;
use std::net::Net;
use std::process::Abort;
use std::test::Fail;
use tnc_base::OutOfMemory;
use tnc_ports::MemLive;

/// A UI frame from N7LEM to NJ7P. As a KISS frame it has 19 octets.
const FRAME: &[u8] = b"\x9c\x94\x6e\xa0\x40\x40\xe0\x9c\x6e\x98\x8a\x9a\x40\x61\x03\xf0";

fn frame() -> &'static [u8]
    ensures { HasFrameLength result.now }
{
    FRAME
}

/// A station over sockets in memory.
#[derive(Drop)]
struct Desk {
    alloc: Global,
    side: HostSide,
    live: Box<MemLive>,
}

impl Desk {
    /// In a box, so that each test that owns a desk is proved several times faster.
    fn new(alloc: Global, live: Box<MemLive>) -> Result<Box<Desk>, Fail> {
        let params = Params::default();
        let side = HostSide::new(alloc, Config::new(params, None), 7)?;
        Ok(Box::new(alloc, Desk { alloc, side, live })?)
    }

    /// The frame is heard so often.
    fn hear(&mut self, times: u32) -> Result<(), OutOfMemory> {
        for _ in 0..times {
            self.side.hear(frame())?;
        }
        Ok(())
    }

    /// A turn for each of these numbers, before which the frame is heard so often.
    fn turns<R: Net>(&mut self, rt: &R, frames: &[u32]) -> Result<(), OutOfMemory> {
        for times in frames {
            self.hear(*times)?;
            self.side.part(rt, &mut self.live.ports)?;
        }
        Ok(())
    }

    /// So many ticks of a free channel.
    fn ticks(&mut self, count: u32) -> Result<(), OutOfMemory> {
        for _ in 0..count {
            self.side.tick(false)?;
        }
        Ok(())
    }

    /// The sends as text: after which poll, to which connection, and how many octets were offered.
    fn sends(&self) -> Result<String, OutOfMemory> {
        let mut text = String::new(self.alloc);
        for send in self.live.ports.sends() {
            write!(text, "{}:{}:{} ", send.polls, send.id, send.offered)?;
        }
        Ok(text)
    }

    /// The polls as text: how long each waits, and how many ids it pauses.
    fn polls(&self) -> Result<String, OutOfMemory> {
        let mut text = String::new(self.alloc);
        for poll in self.live.ports.polls() {
            write!(text, "{}:{} ", poll.wait_ms, poll.paused.len())?;
        }
        Ok(text)
    }

    /// The ids of the `closed` lines that were not taken yet.
    fn closed(&mut self) -> Result<String, OutOfMemory> {
        let mut text = String::new(self.alloc);
        for line in &self.side.take_lines() {
            if let ReportLine::ClosedLine { id } = line {
                write!(text, "{id} ")?;
            }
        }
        Ok(text)
    }
}

/// Host 5 joins, and again later; host 2 joins, and goes at the fourth poll.
fn two_hosts(alloc: Global) -> Result<Script, OutOfMemory> {
    let mut script = Script::new(alloc);
    script.joins(0, 5, PortKind::Kiss)?;
    script.joins(0, 2, PortKind::Kiss)?;
    script.joins(1, 5, PortKind::Kiss)?;
    script.leaves(3, 2)?;
    Ok(script)
}

fn assert_sends<R: Abort>(rt: &R, desk: &Desk, want: &str) -> Result<(), Fail> {
    let sends = desk.sends()?;
    assert_equal(rt, &sends.as_str(), &want);
    Ok(())
}

fn assert_closed<R: Abort>(rt: &R, desk: &mut Desk, want: &str) -> Result<(), Fail> {
    let closed = desk.closed()?;
    assert_equal(rt, &closed.as_str(), &want);
    Ok(())
}

#[test]
fn a_turn_offers_each_host_one_piece(rt: HostRuntime) -> Result<(), Fail> {
    let live = two_hosts(rt.alloc())?.failing(&[])?;
    let mut desk = Desk::new(rt.alloc(), live)?;
    desk.turns(&rt, &[0, 2])?;
    assert_sends(&rt, &desk, "2:5:19 2:2:19 ")?;
    assert_equal(&rt, &desk.polls()?.as_str(), &"10:0 10:0 ");
    Ok(())
}

// Calls 4 and 5 of the sockets fail: the third poll, and a send to host 5.
#[test]
fn a_host_whose_send_fails_is_shut(rt: HostRuntime) -> Result<(), Fail> {
    let live = two_hosts(rt.alloc())?.failing(&[4, 5])?;
    let mut desk = Desk::new(rt.alloc(), live)?;
    desk.turns(&rt, &[0, 2, 0, 1])?;
    assert_closed(&rt, &mut desk, "5 ")?;
    assert_closed(&rt, &mut desk, "")?;
    assert_sends(&rt, &desk, "2:5:19 2:2:19 3:2:19 ")?;
    let came = came(rt.alloc(), &desk.live.ports)?;
    assert_equal(&rt, &came.as_str(), &"5:shut 2:open 5:shut ");
    Ok(())
}

// 262,144 is 19 times 13,797 and 1 more.
#[test]
fn a_host_that_takes_nothing_is_shut_when_its_buffer_is_full(rt: HostRuntime) -> Result<(), Fail> {
    let live = two_hosts(rt.alloc())?.taking(0)?;
    let mut desk = Desk::new(rt.alloc(), live)?;
    desk.turns(&rt, &[0, 13_797])?;
    assert_sends(&rt, &desk, "2:5:19 2:2:19 ")?;
    assert_closed(&rt, &mut desk, "")?;
    desk.hear(1)?;
    assert_closed(&rt, &mut desk, "5 2 ")
}

#[test]
fn a_tick_without_frames_is_silent(rt: HostRuntime) -> Result<(), Fail> {
    let alloc = rt.alloc();
    let mut desk = Desk::new(alloc, Script::new(alloc).taking(0)?)?;
    let air = desk.side.tick(false)?;
    assert!(rt; air.samples == [0; 96] && !air.began);
    Ok(())
}

#[test]
fn a_line_is_noted(rt: HostRuntime) -> Result<(), Fail> {
    let alloc = rt.alloc();
    let mut desk = Desk::new(alloc, Script::new(alloc).taking(0)?)?;
    desk.side.note(ReportLine::ClosedLine { id: 9 })?;
    assert_closed(&rt, &mut desk, "9 ")
}

/// The same frame as a host sends it.
const RAW: &[u8] = b"\xc0\x00\x9c\x94\x6e\xa0\x40\x40\xe0\x9c\x6e\x98\x8a\x9a\x40\x61\x03\xf0\xc0";

/// In so many turns a host brings two frames each, and another one asks for the version in each fifth.
const TURNS: u32 = 200;

fn one_floods(alloc: Global) -> Result<Script, Fail> {
    let request = message(alloc, b'R', ["", ""], b"")?;
    let mut script = Script::new(alloc);
    script.joins(0, 5, PortKind::Kiss)?;
    script.joins(0, 2, PortKind::Agw)?;
    for poll in 0..TURNS {
        script.brings(u64::from(poll), 5, RAW)?;
        script.brings(u64::from(poll), 5, RAW)?;
        if poll % 5 == 0 {
            script.brings(u64::from(poll), 2, &request)?;
        }
    }
    Ok(script)
}

/// What host 2 is offered: an answer of 44 octets in the turn of each request.
fn answers(alloc: Global) -> Result<String, OutOfMemory> {
    let mut text = String::new(alloc);
    for poll in 0..TURNS {
        if poll % 5 == 0 {
            write!(text, "{}:2:44 ", poll + 1)?;
        }
    }
    Ok(text)
}

// A turn has a tick.
#[test]
fn a_host_that_floods_waits_alone(rt: HostRuntime) -> Result<(), Fail> {
    let live = one_floods(rt.alloc())?.failing(&[])?;
    let mut desk = Desk::new(rt.alloc(), live)?;
    for _ in 0..TURNS {
        desk.ticks(1)?;
        desk.turns(&rt, &[0])?;
    }
    let want = answers(rt.alloc())?;
    assert_sends(&rt, &desk, &want)?;
    let polls = desk.polls()?;
    let standing = desk.side.standing();
    let got = (polls.ends_with("10:1 10:1 "), standing.dropped);
    assert_equal(&rt, &got, &(true, 0));
    Ok(())
}

/// Hosts 5 and 2 join, and 5 registers N7LEM; later 2 asks for it.
fn a_call_for_two(alloc: Global) -> Result<Script, Fail> {
    let call = message(alloc, b'X', ["N7LEM", ""], b"")?;
    let mut script = Script::new(alloc);
    script.joins(0, 5, PortKind::Agw)?;
    script.joins(0, 2, PortKind::Agw)?;
    script.brings(0, 5, &call)?;
    script.brings(1, 2, &call)?;
    Ok(script)
}

/// Each row: how many ticks nothing comes from the host that has the call, the `closed` lines when another one asks for
/// it, and the answers to both.
const SILENCES: &[(u32, &str, &str)] = &[
    (5999, "", "1:5:37 2:2:37 "),
    (6000, "5 ", "1:5:37 2:2:37 "),
];

#[test]
fn a_call_passes_from_a_silent_host(rt: HostRuntime) -> Result<(), Fail> {
    for (ticks, closed, sends) in SILENCES {
        let live = a_call_for_two(rt.alloc())?.failing(&[])?;
        let mut desk = Desk::new(rt.alloc(), live)?;
        desk.turns(&rt, &[0])?;
        desk.ticks(*ticks)?;
        desk.turns(&rt, &[0])?;
        assert_closed(&rt, &mut desk, *closed)?;
        assert_sends(&rt, &desk, *sends)?;
    }
    Ok(())
}
