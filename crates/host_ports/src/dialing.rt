//! A connection to a host.

use mio::net::TcpStream;
use mio::{Events, Interest, Poll, Token};
use std::alloc::Global;
use std::io;
use std::io::ErrorKind;
use std::net::{Ipv4Addr, Net, SocketAddr};
use std::time::Duration;

/// How often a dial looks whether it is connected.
const LOOKS: u32 = 40;

/// How long it waits between two looks, at most, in milliseconds.
const LOOK: u64 = 100;

/// A connection to a port of 127.0.0.1. One that is refused, or that takes more than a few seconds, is a fault.
pub(crate) fn connected<R: Net>(rt: &R, alloc: Global, port: u16) -> io::Result<TcpStream> {
    let mut stream = TcpStream::connect(rt, SocketAddr::from((Ipv4Addr::LOCALHOST, port)))?;
    let mut poll = Poll::new(rt)?;
    let mut events = Events::with_capacity(alloc, 1)?;
    poll.registry()
        .register(&mut stream, Token(0), Interest::WRITABLE)?;
    for _ in 0..LOOKS {
        if let Some(fault) = stream.take_error()? {
            return Err(fault);
        }
        if stream.peer_addr().is_ok() {
            poll.registry().deregister(&mut stream)?;
            return Ok(stream);
        }
        poll.poll(&mut events, Some(Duration::from_millis(LOOK)))?;
    }
    Err(io::Error::from(ErrorKind::TimedOut))
}
