//! The line of the system. It tells nothing, since no contract can know what a socket gives or takes.
ghost use Rattle.std.specs.Prelude.{◌≡◌, ◌≤◌, None, length};
ghost use Rattle.tnc_base.specs.Faults.{next_count};

use crate::key_port::KeyPort;
use crate::key_records::{KeyCame, KeyWrite};
use keying::{Command, End};
use mio::net::TcpStream;
use std::io::{ErrorKind, Read, Write};
use std::net::{Ipv4Addr, Net, SocketAddr};
use std::time::{Clock, Duration};
use tnc_base::{Failed, Sink};

/// How long a rest is, in ms.
const REST: u64 = 10;

/// A line over a clock.
#[derive(Drop)]
pub struct RealKeyPort<C> {
    clock: C,
    stream: Option<TcpStream>,
    time: u64,
    faults: u64,
}

impl<C: Clock> RealKeyPort<C> {
    /// A line with no connection.
    pub fn new(clock: C) -> RealKeyPort<C> {
        RealKeyPort {
            clock,
            stream: None,
            time: 0,
            faults: 0,
        }
    }

    /// Writes a command by one call, if there is a connection.
    fn put(&mut self, command: Command) -> KeyWrite
        ensures { (self.new.time ≡ self.old.time) × (self.new.faults ≡ self.old.faults) }
    {
        match &mut self.stream {
            Some(stream) => written(stream, command.text()),
            None => KeyWrite::Failed,
        }
    }

    /// Counts a fault.
    fn fail(&mut self)
        ensures { self.new ≡ record self.old { faults = next_count self.old.faults } }
    {
        self.faults = self.faults.saturating_add(1);
    }
}

impl<C: Clock + Drop, O: Sink> KeyPort<O> for RealKeyPort<C> {
    ghost told = { λ s. record { lines = None; faults = s.faults } };

    ghost time = { λ s. s.time };

    /// A clock that fails stands still.
    fn now(&mut self) -> u64 {
        if let Ok(since) = self.clock.monotonic() {
            let time = u64::try_from(since.as_millis()).unwrap_or(u64::MAX);
            self.time = self.time.max(time);
        }
        self.time
    }

    fn connect<R: Net>(&mut self, rt: &R, port: u16) -> Result<(), Failed> {
        self.stream = None;
        match TcpStream::connect(rt, SocketAddr::from((Ipv4Addr::LOCALHOST, port))) {
            Ok(stream) => {
                self.stream = Some(stream);
                Ok(())
            }
            Err(_) => {
                self.fail();
                Err(Failed)
            }
        }
    }

    fn read(&mut self, buffer: &mut [u8]) -> KeyCame {
        let came = match &mut self.stream {
            Some(stream) => came(stream, buffer),
            None => KeyCame {
                count: 0,
                end: None,
            },
        };
        if came.end == Some(End::Fault) {
            self.fail();
        }
        came
    }

    fn open(&mut self, _output: &O) -> KeyWrite {
        let how = self.put(Command::Release);
        if how == KeyWrite::Failed {
            self.fail();
        }
        how
    }

    fn write(&mut self, command: Command, _output: &O) -> Result<(), Failed> {
        if self.put(command) == KeyWrite::Whole {
            return Ok(());
        }
        self.fail();
        Err(Failed)
    }

    fn hang_up(&mut self) {
        self.stream = None;
    }

    fn rest(&mut self) {
        self.clock.sleep(Duration::from_millis(REST));
    }
}

/// Reads once.
fn came(stream: &mut TcpStream, buffer: &mut [u8]) -> KeyCame
    ensures { result.count ≤ length buffer.new }
{
    match stream.read(buffer) {
        Ok(count) if count > 0 => KeyCame { count, end: None },
        Ok(_) => KeyCame {
            count: 0,
            end: Some(End::Closed),
        },
        Err(fault) if fault.kind() == ErrorKind::WouldBlock => KeyCame {
            count: 0,
            end: None,
        },
        Err(_) => KeyCame {
            count: 0,
            end: Some(End::Fault),
        },
    }
}

/// Writes once.
fn written(stream: &mut TcpStream, octets: &[u8]) -> KeyWrite {
    match stream.write(octets) {
        Ok(count) if count == octets.len() => KeyWrite::Whole,
        Err(fault) if fault.kind() == ErrorKind::WouldBlock => KeyWrite::NotYet,
        _ => KeyWrite::Failed,
    }
}
