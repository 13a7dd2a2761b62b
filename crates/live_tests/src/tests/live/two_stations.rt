//! Two live stations that hear each other, over sockets in memory, on a channel that a third station uses too: a call,
//! data both ways, a transmission that is lost, and the end of the link. All that the law of two live runs asks is
//! found to hold of what the monitors tell, and what it concludes of what the hosts took.

ghost use Rattle.std.specs.Prelude.{ℕ};
ghost use Rattle.link_machine.specs.Params.{IsRefusedWindow};
ghost use Rattle.live_receiver.specs.Listening.{CanBeAskedBy};

use super::outcome::{EIGHT, NONE, Outcome, served_as, silence, words};
use super::premises::{Station, stand_in_order};
use super::script::Script;
use crate::assertions::assert_equal;
use afsk_modulator::transmission;
use channel_access::Parameters;
use link_machine::Params;
use station::{Config, PortKind};
use station_tests::{field, message, message_with_pid};
use std::alloc::Global;
use std::marker::Model;
use std::net::Net;
use std::process::Abort;
use std::sync::Wait;
use std::test::Fail;
use std::thread::Threads;
use tnc_base::{Octets, OutOfMemory};
use tnc_ports::{MemLive, ServeEnd, ServeWords};

/// The calls of the two stations.
const CALLS: [&str; 2] = ["N7LEM", "NJ7P"];

/// What each host gives, PID 0xF0.
const GIVEN: [&[u8]; 2] = [b"Good morning, NJ7P.", b"And to you, N7LEM."];

/// The samples of a turn, in which a station makes the sound that it sends from what it has heard by its end.
const TURN: u32 = 9600;

/// How many turns a run has, and its most samples: the ring holds so many.
const TURNS: u32 = 7;

const MOST: u32 = 65_536;

/// SABM with P from K1ABC to NJ7P.
const THIRD: &[u8] = b"\x9c\x94\x6e\xa0\x40\x40\xe0\x96\x62\x82\x84\x86\x40\x61\x3f";

/// From which sample on each of the two hears the third station: NJ7P when N7LEM sends its data for the first time.
const THIRD_AT: [usize; 2] = [23_520, 19_200];

/// A T1 that is longer than an answer takes, and no draws: a transmission begins as soon as the channel is free.
fn station_words(seed: u64) -> ServeWords
    ensures window { (window : ℕ) → ¬ IsRefusedWindow result.config.params window }
    ensures dcd { CanBeAskedBy result.listening result.dcd }
{
    let words = words(true, EIGHT);
    let params = Params {
        t1: 100,
        ..words.config.params
    };
    let channel = Parameters {
        persist: 255,
        ..words.config.channel
    };
    let config = Config {
        params,
        channel,
        ..words.config
    };
    ServeWords {
        seed,
        config,
        ..words
    }
}

/// The host of N7LEM calls, gives its text at once, and ends the link later.
fn calling(alloc: Global) -> Result<Box<MemLive>, Fail> {
    let mut script = Script::new(alloc);
    script.joins(0, 1, PortKind::Agw)?;
    script.brings(0, 1, &message(alloc, b'X', ["N7LEM", ""], b"")?)?;
    script.brings(0, 1, &message(alloc, b'C', CALLS, b"")?)?;
    script.brings(0, 1, &data(alloc, CALLS, GIVEN[0])?)?;
    script.brings(4, 1, &message(alloc, b'd', CALLS, b"")?)?;
    Ok(script.failing(&[])?)
}

/// The host of NJ7P answers with its text.
fn called(alloc: Global) -> Result<Box<MemLive>, Fail> {
    let mut script = Script::new(alloc);
    script.joins(0, 1, PortKind::Agw)?;
    script.brings(0, 1, &message(alloc, b'X', ["NJ7P", ""], b"")?)?;
    script.brings(1, 1, &data(alloc, [CALLS[1], CALLS[0]], GIVEN[1])?)?;
    Ok(script.failing(&[])?)
}

fn data(alloc: Global, ends: [&str; 2], text: &[u8]) -> Result<Vec<u8>, Fail> {
    message_with_pid(alloc, (b'D', 0xf0), ends, text)
}

/// What the third station sends.
fn third_sound(alloc: Global) -> Result<Vec<u8>, Fail> {
    let mut frames = Vec::new(alloc);
    frames.push(Octets::from_slice(alloc, THIRD)?)?;
    let mut sound = Vec::new(alloc);
    for sample in transmission(alloc, &frames, 45, 3)? {
        sound.extend_from_slice(&sample.to_le_bytes())?;
    }
    Ok(sound)
}

/// What a station hears in so many turns: the sound of the other one, so many samples later, and from a sample on, for as
/// long as the third one sends, that one alone.
fn heard(
    alloc: Global,
    turns: u32,
    sound: &[u8],
    later: u32,
    third_at: usize,
) -> Result<Vec<u8>, Fail> {
    let mut input = silence(alloc, later)?;
    input.extend_from_slice(sound)?;
    input.truncate(2 * (TURN * turns.min(TURNS)).min(MOST) as usize);
    let start = 2 * third_at.min(MOST as usize);
    for (place, octet) in third_sound(alloc)?.iter().enumerate() {
        if let Some(slot) = input.get_mut(start.saturating_add(place)) {
            *slot = *octet;
        }
    }
    Ok(input)
}

/// Two runs, and the sockets of their hosts.
#[derive(Drop)]
struct Runs {
    outcomes: [Box<Outcome>; 2],
    lives: [Box<MemLive>; 2],
}

// No test needs a fact about runs, so their value shows none. Each test is then proved faster.
impl Model for Runs {
    ghost use Rattle.std.specs.Prelude.{⊤};

    ghost Value = { ⊤ };

    ghost view = { λ _. tt };
}

/// So many turns of each station. NJ7P hears what N7LEM sends in the same turn, which is made before, and N7LEM hears a turn
/// later what NJ7P sends.
fn run<R: Threads + Wait + Net + Sync>(
    rt: &R,
    alloc: Global,
    turns: u32,
    sound: &[u8],
) -> Result<Runs, Fail> {
    let mut a = calling(alloc)?;
    let input = heard(alloc, turns, sound, TURN, THIRD_AT[0])?;
    let caller = served_as(rt, alloc, station_words(1), input, NONE, &mut a)?;
    let mut b = called(alloc)?;
    let input = heard(alloc, turns, &caller.output, 0, THIRD_AT[1])?;
    let other = served_as(rt, alloc, station_words(2), input, NONE, &mut b)?;
    Ok(Runs {
        outcomes: [caller, other],
        lives: [a, b],
    })
}

/// Two runs of which each one hears the other. They grow turn by turn, and what NJ7P has sent in the turns before stays.
fn joint<R: Threads + Wait + Net + Sync + Abort>(rt: &R, alloc: Global) -> Result<Runs, Fail> {
    let mut runs = run(rt, alloc, 1, &[])?;
    for turns in 2..=TURNS {
        let next = run(rt, alloc, turns, &runs.outcomes[1].output)?;
        assert!(*rt;
            next.outcomes[1]
                .output
                .starts_with(&runs.outcomes[1].output)
        );
        runs = next;
    }
    Ok(runs)
}

/// All octets that the host took.
fn taken(alloc: Global, live: &MemLive) -> Result<Vec<u8>, OutOfMemory> {
    let mut octets = Vec::new(alloc);
    for send in live.ports.sends() {
        octets.extend_from_slice(send.octets.as_slice())?;
    }
    Ok(octets)
}

/// The header of the first message, its body of less than 256 octets, and what follows.
fn first_message(octets: &[u8]) -> Option<(&[u8], &[u8], &[u8])> {
    let end = 36 + usize::from(*octets.get(28)?);
    Some((octets.get(..36)?, octets.get(36..end)?, octets.get(end..)?))
}

/// Whether a message has a kind, and goes from one call to another.
fn is_to_owner(header: &[u8], kind: u8, [from, to]: [&str; 2]) -> bool {
    header.get(4) == Some(&kind)
        && header.get(8..18) == Some(field(from).as_slice())
        && header.get(18..28) == Some(field(to).as_slice())
}

/// The octets of `D` in each set-up of a link, as its owner took them.
fn octets_got(alloc: Global, taken: &[u8], ends: [&str; 2]) -> Result<Vec<Vec<u8>>, OutOfMemory> {
    let mut gots: Vec<Vec<u8>> = Vec::new(alloc);
    let mut left = taken;
    for _ in 0..taken.len() {
        let Some((header, body, rest)) = first_message(left) else {
            break;
        };
        if is_to_owner(header, b'C', ends) {
            gots.push(Vec::new(alloc))?;
        } else if is_to_owner(header, b'D', ends) {
            if let Some(last) = gots.last_mut() {
                last.extend_from_slice(body)?;
            }
        }
        left = rest;
    }
    Ok(gots)
}

/// Ends the test unless a host took exactly this in one set-up.
fn assert_got<R: Abort>(
    rt: &R,
    alloc: Global,
    live: &MemLive,
    ends: [&str; 2],
    given: &[u8],
) -> Result<(), Fail> {
    let gots = octets_got(alloc, &taken(alloc, live)?, ends)?;
    assert_equal(rt, &gots.len(), &1);
    for got in &gots {
        assert_equal(rt, &got.as_slice(), &given);
    }
    Ok(())
}

/// What a station tells of the link of the two calls.
fn told<'a>(
    alloc: Global,
    run: &'a Outcome,
    prefixes: [&str; 2],
) -> Result<Station<'a>, OutOfMemory> {
    Station::new(alloc, str::from_utf8(&run.report).unwrap_or(""), prefixes)
}

/// Ends the test unless the link's frames are heard in order and once, each sent before, and set-up frames find a quiet
/// channel; and unless each side sends and hears so many of them.
fn assert_premises<R: Abort>(
    rt: &R,
    alloc: Global,
    runs: &Runs,
    wanted: [usize; 4],
) -> Result<(), Fail> {
    let mut a = told(
        alloc,
        &runs.outcomes[0],
        ["tx N7LEM>NJ7P ", "rx NJ7P>N7LEM "],
    )?;
    let mut b = told(
        alloc,
        &runs.outcomes[1],
        ["tx NJ7P>N7LEM ", "rx N7LEM>NJ7P "],
    )?;
    assert!(*rt; a.pair(b.frames())? && b.pair(a.frames())?);
    let counts = [a.frames().len(), b.hears(), b.frames().len(), a.hears()];
    assert_equal(rt, &counts, &wanted);
    assert!(*rt; stand_in_order(&mut a, &mut b));
    Ok(())
}

fn has_line(run: &Outcome, line: &str) -> bool {
    let report = str::from_utf8(&run.report).unwrap_or("");
    report.find(line).is_some()
}

#[test]
fn two_stations_get_what_was_given(rt: HostRuntime) -> Result<(), Fail> {
    let alloc = rt.alloc();
    let runs = joint(&rt, alloc)?;
    for run in &runs.outcomes {
        assert_equal(&rt, &run.end, &ServeEnd::Done);
        assert!(rt; has_line(run, "rx K1ABC>NJ7P SABM "));
    }
    assert_premises(&rt, alloc, &runs, [5, 4, 4, 4])?;
    assert_got(&rt, alloc, &runs.lives[0], [CALLS[1], CALLS[0]], GIVEN[1])?;
    assert_got(&rt, alloc, &runs.lives[1], CALLS, GIVEN[0])
}
