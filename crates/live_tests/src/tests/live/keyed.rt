//! A live station whose transmitter is keyed over a line in memory.
ghost use Rattle.std.specs.Prelude.{ℕ};
ghost use Rattle.link_machine.specs.Params.{IsRefusedWindow};
ghost use Rattle.live_receiver.specs.Listening.{CanBeAskedBy};

use super::outcome::{EIGHT, Failing, NONE, Outcome, served_as, silence, words};
use super::script::Script;
use crate::assertions::assert_equal;
use key_port::{KeyOutcome, KeyStep, MemKeyPort};
use keying::{Command, Words};
use station::PortKind;
use std::alloc::Global;
use std::net::Net;
use std::sync::Wait;
use std::test::Fail;
use std::thread::Threads;
use tnc_base::{Octets, OutOfMemory};
use tnc_ports::{KeyWords, Live, MemLive, ServeEnd, ServeWords};

/// The calls of the line that bring octets, and those that fail. The first turn makes call 0, a read, call 1 to connect
/// and call 2 to release; the second turn reads by call 3, its keying command is call 4 and its release call 5.
type Calls = (&'static [(u64, &'static [u8])], &'static [u64]);

fn script(alloc: Global, (brings, fails): Calls) -> Result<Vec<(u64, KeyOutcome)>, OutOfMemory> {
    let mut script = Vec::new(alloc);
    for (call, text) in brings {
        let octets = Octets::from_slice(alloc, text)?;
        script.push((*call, KeyOutcome::Brings { octets }))?;
    }
    for call in fails {
        script.push((*call, KeyOutcome::Fails))?;
    }
    Ok(script)
}

/// A station whose transmitter is keyed, with a tail of one tick.
fn keyed_words() -> ServeWords
    ensures window { (window : ℕ) → ¬ IsRefusedWindow result.config.params window }
    ensures dcd { CanBeAskedBy result.listening result.dcd }
{
    let key = KeyWords {
        port: 4532,
        words: Words {
            tail: 1,
            data: false,
        },
    };
    ServeWords {
        key: Some(key),
        ..words(false, EIGHT)
    }
}

/// P of 255, no slot time and a TXDELAY of one tick, and then a frame from N7LEM to NJ7P.
pub(super) const FRAME: &[u8] = b"\xc0\x02\xff\xc0\xc0\x03\x00\xc0\xc0\x01\x01\xc0\xc0\x00\
    \x9c\x94\x6e\xa0\x40\x40\xe0\x9c\x6e\x98\x8a\x9a\x40\x61\x03\xf0\xc0";

/// A host brings the frame at the first poll, and the line goes as the script says, 10 ms from look to look.
fn keyed_live(alloc: Global, calls: Calls) -> Result<Box<MemLive>, Fail> {
    let mut script_of_hosts = Script::new(alloc);
    script_of_hosts.joins(0, 1, PortKind::Kiss)?;
    script_of_hosts.brings(0, 1, FRAME)?;
    let Live {
        ports,
        spawner,
        key: _,
        seed,
    } = Box::into_inner(script_of_hosts.failing(&[])?);
    let key = MemKeyPort::new(alloc, script(alloc, calls)?, 10);
    let live = Live {
        ports,
        spawner,
        key,
        seed,
    };
    Ok(Box::new(alloc, live)?)
}

fn command_name(command: Command) -> &'static str {
    match command {
        Command::Key => "key",
        Command::KeyData => "data",
        Command::Release => "release",
    }
}

/// Each command with how many octets the output had by then, and how many octets were read, connection by connection.
fn told(alloc: Global, key: &MemKeyPort) -> Result<String, OutOfMemory> {
    let mut text = String::new(alloc);
    for line in key.lines() {
        write!(text, "{}:", line.port)?;
        for step in &line.steps {
            match step {
                KeyStep::Wrote { command, had } => {
                    write!(text, " {} {had}", command_name(*command))?
                }
                KeyStep::Read { octets, .. } => write!(text, " read {}", octets.as_slice().len())?,
            }
        }
        write!(text, ";")?;
    }
    Ok(text)
}

/// What a station writes of three seconds of silence.
fn served_keyed<R: Threads + Wait + Net + Sync>(
    rt: &R,
    alloc: Global,
    failing: Failing<'_>,
    live: &mut MemLive,
) -> Result<Box<Outcome>, OutOfMemory> {
    let input = silence(alloc, 28_800)?;
    served_as(rt, alloc, keyed_words(), input, failing, live)
}

const OK: &[u8] = b"RPRT 0\n";

/// Each row: how the calls of the line go, the writes that fail, the end, how many octets come out and whether they have
/// sound, the report, and what the line has. A turn makes 100 ticks of 192 octets, so the frame is sent in the second turn, from tick 100 on. With
/// two flags before it and three after it, it has 185 bits, which are 16 ticks; the tail is tick 116.
const ROWS: &[(Calls, Failing<'static>, ServeEnd, (usize, bool), &str, &str)] = &[
    (
        (&[], &[]),
        NONE,
        ServeEnd::Done,
        (57_600, false),
        "",
        "4532: release 0;",
    ),
    (
        (&[(3, OK)], &[]),
        NONE,
        ServeEnd::Done,
        (57_600, true),
        "ptt ready\n",
        "4532: release 0 read 7 key 19200 release 22464;",
    ),
    (
        (&[(3, OK), (6, b"RPRT 0\nRPRT 0\n")], &[]),
        NONE,
        ServeEnd::Done,
        (57_600, true),
        "ptt ready\n",
        "4532: release 0 read 7 key 19200 release 22464 read 14;",
    ),
    (
        (&[(3, b"RPRT -1\n")], &[]),
        NONE,
        ServeEnd::Done,
        (57_600, false),
        "ptt lost refused 1\n",
        "4532: release 0 read 8;",
    ),
    (
        (&[], &[1]),
        NONE,
        ServeEnd::Done,
        (57_600, false),
        "ptt lost connect\n",
        "",
    ),
    (
        (&[(3, OK)], &[4]),
        NONE,
        ServeEnd::Done,
        (57_600, true),
        "ptt ready\nptt lost failed\n",
        "4532: release 0 read 7;4532: release 38400;",
    ),
    (
        (&[(3, OK)], &[]),
        [&[], &[105], &[]],
        ServeEnd::WriteFault,
        (20_160, true),
        "ptt ready\n",
        "4532: release 0 read 7 key 19200 release 20160;",
    ),
    (
        (&[(3, OK)], &[]),
        [&[], &[], &[0]],
        ServeEnd::WriteFault,
        (19_200, false),
        "",
        "4532: release 0 read 7 key 19200 release 19200;",
    ),
];

/// Whether some octet of the output is not 0.
fn sounds(output: &[u8]) -> bool {
    output.iter().any(|octet| *octet != 0)
}

#[test]
fn a_key_goes_as_its_line_does(rt: HostRuntime) -> Result<(), Fail> {
    let alloc = rt.alloc();
    for (calls, failing, end, octets, report, line) in ROWS {
        let mut live = keyed_live(alloc, *calls)?;
        let served = served_keyed(&rt, alloc, *failing, &mut live)?;
        let came = (served.output.len(), sounds(&served.output));
        assert_equal(&rt, &(served.end, came), &(*end, *octets));
        assert_equal(&rt, &served.report.as_slice(), &report.as_bytes());
        let told = told(alloc, &live.key)?;
        assert_equal(&rt, &told.as_str(), line);
    }
    Ok(())
}
