//! A line over a script, and one on loopback.

use crate::tests::assertions::assert_equal;
use key_port::{
    KeyCame, KeyOutcome, KeyPort, KeyReports, KeySide, KeyStep, KeyWrite, MemKeyPort, RealKeyPort,
};
use keying::{Command, End, Why, Words};
use std::alloc::{AllocError, Global};
use std::io::{Read, Write};
use std::net::{Ipv4Addr, Net, SocketAddr, TcpListener};
use std::process::Abort;
use std::sync::Wait;
use std::test::Fail;
use tnc_base::{Failed, MemSink, Octets, OutOfMemory, Sink};

/// The commands and the octets of all connections, in order.
fn told(alloc: Global, key: &MemKeyPort) -> Result<Vec<u8>, AllocError> {
    let mut text = Vec::new(alloc);
    for line in key.lines() {
        for step in &line.steps {
            match step {
                KeyStep::Wrote { command, .. } => text.extend_from_slice(command.text())?,
                KeyStep::Read { octets, .. } => text.extend_from_slice(octets.as_slice())?,
            }
        }
    }
    Ok(text)
}

/// How many octets the output had at each command.
fn had_at_commands(alloc: Global, key: &MemKeyPort) -> Result<Vec<usize>, AllocError> {
    let mut all = Vec::new(alloc);
    for line in key.lines() {
        for step in &line.steps {
            if let KeyStep::Wrote { had, .. } = step {
                all.push(*had)?;
            }
        }
    }
    Ok(all)
}

/// The first connection fails and the first write is early; the fifth call brings an answer, and the last one the end.
fn script(alloc: Global) -> Result<Vec<(u64, KeyOutcome)>, OutOfMemory> {
    let octets = Octets::from_slice(alloc, b"RPRT 0\n")?;
    let mut script = Vec::new(alloc);
    script.push((0, KeyOutcome::Fails))?;
    script.push((2, KeyOutcome::IsEarly))?;
    script.push((4, KeyOutcome::Brings { octets }))?;
    script.push((6, KeyOutcome::Ends))?;
    Ok(script)
}

/// A read that brings so many octets, or ends so.
fn came(count: usize, end: Option<End>) -> KeyCame {
    KeyCame { count, end }
}

/// Ends the test unless the commands and the octets of all connections are these.
fn assert_told<R: Abort>(rt: &R, alloc: Global, key: &MemKeyPort, want: &[u8]) -> Result<(), Fail> {
    let told = told(alloc, key)?;
    assert_equal(rt, &told.as_slice(), &want);
    Ok(())
}

/// Ends the test unless the output had so many octets at each command.
fn assert_had<R: Abort>(
    rt: &R,
    alloc: Global,
    key: &MemKeyPort,
    want: &[usize],
) -> Result<(), Fail> {
    let had = had_at_commands(alloc, key)?;
    assert_equal(rt, &had.as_slice(), &want);
    Ok(())
}

/// Ends the test unless the line is connected at the second try, and its first release is written at the second.
fn assert_opens<R: Abort + Net>(rt: &R, key: &mut MemKeyPort, output: &MemSink) {
    let begun = [key.connect(rt, 4532), key.connect(rt, 4532)];
    assert_equal(rt, &begun, &[Err(Failed), Ok(())]);
    let opened = [key.open(output), key.open(output)];
    assert_equal(rt, &opened, &[KeyWrite::NotYet, KeyWrite::Whole]);
    assert_equal(rt, &key.now(), &10);
}

/// Ends the test unless an answer comes, the key is written, and then the end comes.
fn assert_goes_on<R: Abort>(
    rt: &R,
    key: &mut MemKeyPort,
    output: &mut MemSink,
) -> Result<(), Fail> {
    let mut buffer = [0; 64];
    let answer = key.read(&mut buffer);
    output.write(&[1; 192])?;
    let keyed = key.write(Command::Key, output);
    let end = key.read(&mut buffer);
    key.hang_up();
    let after = key.read(&mut buffer);
    let released = key.write(Command::Release, output);
    assert_equal(
        rt,
        &[answer, end, after],
        &[came(7, None), came(0, Some(End::Closed)), came(0, None)],
    );
    assert_equal(rt, &[keyed, released], &[Ok(()), Err(Failed)]);
    Ok(())
}

fn assert_line<R: Abort + Net>(
    rt: &R,
    alloc: Global,
    key: &mut MemKeyPort,
    output: &mut MemSink,
) -> Result<(), Fail> {
    assert_opens(rt, key, output);
    assert_goes_on(rt, key, output)?;
    assert_told(rt, alloc, key, b"T 0\nRPRT 0\nT 1\n")?;
    assert_had(rt, alloc, key, &[0, 192])
}

#[test]
fn a_script_says_how_each_call_goes(rt: HostRuntime) -> Result<(), Fail> {
    let alloc = rt.alloc();
    let mut output = MemSink::new(alloc, 192, Vec::new(alloc))?;
    let mut key = MemKeyPort::new(alloc, script(alloc)?, 10);
    assert_line(&rt, alloc, &mut key, &mut output)
}

/// The calls of these numbers read that a command is accepted.
fn accepting(alloc: Global, calls: &[u64]) -> Result<Vec<(u64, KeyOutcome)>, OutOfMemory> {
    let mut script = Vec::new(alloc);
    for call in calls {
        let octets = Octets::from_slice(alloc, b"RPRT 0\n")?;
        script.push((*call, KeyOutcome::Brings { octets }))?;
    }
    Ok(script)
}

/// A call of the side that drives a line, a look at it, or the sound of two ticks.
#[derive(Clone, Copy)]
enum Does {
    Turn,
    Tick(bool),
    Written,
    IsFree(bool),
    Sound,
}

/// What a call reports.
fn done<R: Net>(
    rt: &R,
    side: &mut KeySide,
    key: &mut MemKeyPort,
    output: &mut MemSink,
    does: Does,
) -> Result<KeyReports, Fail> {
    match does {
        Does::Turn => Ok(side.turn(rt, key, output)),
        Does::Tick(sounds) => Ok(side.tick(sounds, key, output)),
        Does::Written => Ok(side.written(false, key, output)),
        Does::IsFree(want) => {
            if side.is_free() == want {
                Ok(NOTHING)
            } else {
                Err(Fail::new("the radio is free or not"))
            }
        }
        Does::Sound => {
            output.write(&[1; 192])?;
            Ok(NOTHING)
        }
    }
}

/// Ends the test unless each call reports this.
fn assert_side<R: Abort + Net>(
    rt: &R,
    side: &mut KeySide,
    key: &mut MemKeyPort,
    output: &mut MemSink,
    rows: &[(Does, KeyReports)],
) -> Result<(), Fail> {
    for (number, (does, reports)) in rows.iter().enumerate() {
        let got = done(rt, side, key, output, *does)?;
        assert_equal(rt, &(number, got), &(number, *reports));
    }
    Ok(())
}

/// The same, and then the end of the run.
fn assert_run<R: Abort + Net + Wait>(
    rt: &R,
    words: Words,
    key: &mut MemKeyPort,
    output: &mut MemSink,
    rows: &[(Does, KeyReports)],
) -> Result<(), Fail> {
    let mut side = KeySide::new(words, 4532);
    assert_side(rt, &mut side, key, output, rows)?;
    side.release(rt, key, output);
    Ok(())
}

const NOTHING: KeyReports = KeyReports::NOTHING;

const READY: KeyReports = KeyReports {
    ready: true,
    ..NOTHING
};

const LOST: KeyReports = KeyReports {
    failed: Some(Why::Failed),
    ..NOTHING
};

/// One tick has sound, and the tail is a tick long.
const WITH_SOUND: &[(Does, KeyReports)] = &[
    (Does::Turn, NOTHING),
    (Does::IsFree(false), NOTHING),
    (Does::Turn, READY),
    (Does::IsFree(true), NOTHING),
    (Does::Tick(true), NOTHING),
    (Does::Sound, NOTHING),
    (Does::Written, NOTHING),
    (Does::Turn, NOTHING),
    (Does::Tick(false), NOTHING),
    (Does::Written, NOTHING),
    (Does::Tick(false), NOTHING),
    (Does::Written, NOTHING),
];

fn assert_goes_with_sound<R: Abort + Net + Wait>(
    rt: &R,
    alloc: Global,
    key: &mut MemKeyPort,
    output: &mut MemSink,
) -> Result<(), Fail> {
    let words = Words {
        tail: 1,
        data: false,
    };
    assert_run(rt, words, key, output, WITH_SOUND)?;
    assert_told(rt, alloc, key, b"T 0\nRPRT 0\nT 1\nRPRT 0\nT 0\nRPRT 0\n")?;
    assert_had(rt, alloc, key, &[0, 0, 192])
}

#[test]
fn a_key_goes_with_the_sound(rt: HostRuntime) -> Result<(), Fail> {
    let alloc = rt.alloc();
    let mut output = MemSink::new(alloc, 192, Vec::new(alloc))?;
    let mut key = MemKeyPort::new(alloc, accepting(alloc, &[3, 5, 7])?, 10);
    assert_goes_with_sound(&rt, alloc, &mut key, &mut output)
}

const LOSES: &[(Does, KeyReports)] = &[
    (Does::Turn, NOTHING),
    (Does::Turn, READY),
    (Does::Tick(true), LOST),
];

fn assert_is_released<R: Abort + Net + Wait>(
    rt: &R,
    alloc: Global,
    key: &mut MemKeyPort,
    output: &mut MemSink,
) -> Result<(), Fail> {
    let words = Words {
        tail: 70,
        data: true,
    };
    assert_run(rt, words, key, output, LOSES)?;
    assert_equal(rt, &key.lines().len(), &2);
    assert_told(rt, alloc, key, b"T 0\nRPRT 0\nT 0\nRPRT 0\n")
}

/// The calls of these numbers read that a command is accepted, and the fourth fails.
fn failing(alloc: Global) -> Result<Vec<(u64, KeyOutcome)>, OutOfMemory> {
    let mut script = accepting(alloc, &[3, 8])?;
    script.push((4, KeyOutcome::Fails))?;
    Ok(script)
}

// The keying command is not written, so the line is lost; at the end of the run there is one more.
#[test]
fn a_key_that_is_lost_is_released_on_one_more_line(rt: HostRuntime) -> Result<(), Fail> {
    let alloc = rt.alloc();
    let mut output = MemSink::new(alloc, 0, Vec::new(alloc))?;
    let mut key = MemKeyPort::new(alloc, failing(alloc)?, 10);
    assert_is_released(&rt, alloc, &mut key, &mut output)
}

/// How often a test looks whether something has come to pass.
const LOOKS: u32 = 200;

/// What the first release comes to once the connection stands or has failed.
fn opened<K: KeyPort<MemSink>>(key: &mut K, output: &MemSink) -> KeyWrite {
    for _ in 0..LOOKS {
        let how = key.open(output);
        if how != KeyWrite::NotYet {
            return how;
        }
        key.rest();
    }
    KeyWrite::NotYet
}

/// The first read that brings octets or an end.
fn read<K: KeyPort<MemSink>>(key: &mut K, buffer: &mut [u8; 64]) -> KeyCame {
    for _ in 0..LOOKS {
        let came = key.read(buffer);
        if came.count > 0 || came.end.is_some() {
            return came;
        }
        key.rest();
    }
    came(0, None)
}

fn connects<R: Net, K: KeyPort<MemSink>>(rt: &R, key: &mut K, port: u16) -> Result<(), Failed> {
    key.connect(rt, port)
}

fn writes<K: KeyPort<MemSink>>(
    key: &mut K,
    command: Command,
    output: &MemSink,
) -> Result<(), Failed> {
    key.write(command, output)
}

fn hangs_up<K: KeyPort<MemSink>>(key: &mut K) {
    key.hang_up();
}

/// For how many ms a rest lasts, by the clock of the line.
fn rested<K: KeyPort<MemSink>>(key: &mut K) -> u64 {
    let before = key.now();
    key.rest();
    key.now().saturating_sub(before)
}

fn at(port: u16) -> SocketAddr {
    SocketAddr::from((Ipv4Addr::LOCALHOST, port))
}

/// The next four octets that come from a line.
fn command_from<S: Read>(daemon: &mut S) -> Result<[u8; 4], Fail> {
    let mut command = [0; 4];
    daemon.read_exact(&mut command)?;
    Ok(command)
}

/// Ends the test unless the first release and a key are written, and an answer comes back.
fn assert_is_answered<R: Abort, K: KeyPort<MemSink>, S: Read + Write>(
    rt: &R,
    key: &mut K,
    output: &MemSink,
    daemon: &mut S,
) -> Result<(), Fail> {
    let how = opened(key, output);
    let first = command_from(daemon)?;
    assert_equal(rt, &(how, &first), &(KeyWrite::Whole, b"T 0\n"));
    let keyed = writes(key, Command::Key, output);
    let second = command_from(daemon)?;
    assert_equal(rt, &(keyed, &second), &(Ok(()), b"T 1\n"));
    daemon.write_all(b"RPRT 0\n")?;
    let mut buffer = [0; 64];
    let answer = read(key, &mut buffer);
    let is_answer = buffer.starts_with(b"RPRT 0\n");
    assert_equal(rt, &(answer, is_answer), &(came(7, None), true));
    Ok(())
}

/// Ends the test unless the end of the line is read, and nothing is written after it is hung up.
fn assert_is_over<R: Abort, K: KeyPort<MemSink>>(rt: &R, key: &mut K, output: &MemSink) {
    let mut buffer = [0; 64];
    let end = read(key, &mut buffer);
    hangs_up(key);
    let released = writes(key, Command::Release, output);
    assert_equal(
        rt,
        &(end, released),
        &(came(0, Some(End::Closed)), Err(Failed)),
    );
}

#[test]
fn a_daemon_answers_on_loopback(rt: HostRuntime) -> Result<(), Fail> {
    let output = MemSink::new(rt.alloc(), 0, Vec::new(rt.alloc()))?;
    let listener = TcpListener::bind(&rt, at(0))?;
    let mut key = RealKeyPort::new(&rt);
    connects(&rt, &mut key, listener.local_addr()?.port())?;
    let (mut daemon, _) = listener.accept()?;
    assert_is_answered(&rt, &mut key, &output, &mut daemon)?;
    drop(daemon);
    assert_is_over(&rt, &mut key, &output);
    Ok(())
}

#[test]
fn a_daemon_that_is_not_there_refuses(rt: HostRuntime) -> Result<(), Fail> {
    let alloc = rt.alloc();
    let port = TcpListener::bind(&rt, at(0))?.local_addr()?.port();
    let output = MemSink::new(alloc, 0, Vec::new(alloc))?;
    let mut key = RealKeyPort::new(&rt);
    let begun = connects(&rt, &mut key, port);
    let how = opened(&mut key, &output);
    assert_equal(&rt, &(begun.is_err() || how == KeyWrite::Failed), &true);
    Ok(())
}

#[test]
fn a_rest_takes_ten_milliseconds(rt: HostRuntime) {
    let mut key = RealKeyPort::new(&rt);
    assert!(rt; rested(&mut key) >= 9);
}
