//! The program of the modem: it takes the words of a command line and works from one stream of octets to another, and
//! as a live station also with the hosts that connect to its ports. All that it does is one call over streams and ports
//! that are handed in, whose contract says what each exit status stands for and which octets are written.
#![tactic(auto)]

#[cfg(test)]
mod assertions;
mod batch;
mod calling;
mod laws;
mod live_command;
mod live_run;
mod performing;
mod printing;
mod program;
mod recording;
mod report;
mod serving;
mod status;
mod stop;

use crate::program::run;
use crate::status::Status;
use host_ports::RealPorts;
use key_port::RealKeyPort;
use std::env;
use std::io::{self, ErrorKind};
use std::process::ExitCode;
use std::time::{Clock, SystemTime};
use tnc_base::{RealSink, RealSource};
use tnc_ports::{Live, RealSpawner};

/// The words after the program's name. If any is no text, there are none, which is no command either.
fn given_words(rt: &HostRuntime) -> io::Result<Vec<String>> {
    match env::args(rt) {
        Ok(words) => Ok(words.skip(1).collect(rt.alloc())?),
        Err(error) if error.kind() == ErrorKind::OutOfMemory => Err(error),
        Err(_) => Ok(Vec::new(rt.alloc())),
    }
}

/// The nanoseconds of the system's clock, or 0 if it tells no time. Two stations that start by themselves have two seeds
/// by it, so that they do not draw the same numbers.
fn seed_by_clock(clock: &impl Clock) -> u64 {
    let Ok(now) = SystemTime::now(clock) else {
        return 0;
    };
    match now.duration_since(SystemTime::UNIX_EPOCH) {
        Ok(since) => {
            let nanos = u64::from(since.subsec_nanos());
            since
                .as_secs()
                .wrapping_mul(1_000_000_000)
                .wrapping_add(nanos)
        }
        Err(_) => 0,
    }
}

fn main(rt: HostRuntime) -> ExitCode {
    let Ok(words) = given_words(&rt) else {
        return ExitCode::from(Status::Memory.code());
    };
    let mut input = RealSource::new(rt.stdin());
    let mut output = RealSink::new(rt.stdout());
    let mut report = RealSink::new(rt.stderr());
    let mut live = Live {
        ports: RealPorts::new(rt.alloc()),
        spawner: RealSpawner::new(),
        key: RealKeyPort::new(&rt),
        seed: seed_by_clock(&rt),
    };
    ExitCode::from(run(
        &rt,
        rt.alloc(),
        &words,
        &mut input,
        &mut output,
        &mut report,
        &mut live,
    ))
}

#[cfg(test)]
mod tests;
