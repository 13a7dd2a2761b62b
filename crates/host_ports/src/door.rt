//! The ports that hosts connect to.
ghost use Rattle.std.specs.Prelude.{◌≡◌, ℕ, List, IfOk, OnOk};
ghost use Rattle.station.specs.declared.host_event.PortKind.TheVariants.{Kiss, Agw};
ghost use Rattle.host_ports.specs.RealSockets.{Admits};

use crate::records::Listen;
use crate::sockets::Sockets;
use mio::net::{TcpListener, TcpStream};
use mio::{Interest, Poll, Token};
use station::{HostEvent, PortKind};
use std::io;
use std::net::{Ipv4Addr, Net, SocketAddr};
use tnc_base::OutOfMemory;

/// The most connections that join at one poll on one port.
const MOST_JOINING: u32 = 64;

/// The token of the KISS port.
pub(crate) const KISS: usize = 0;

/// The token of the AGWPE port.
pub(crate) const AGW: usize = 1;

/// A port that hosts connect to, or none.
#[derive(Drop)]
pub(crate) struct Door {
    kind: PortKind,
    /// What listens, if the port is opened.
    listener: Option<TcpListener>,
    /// Connections may wait.
    ready: bool,
}

/// Both ports.
#[derive(Drop)]
pub(crate) struct Doors {
    kiss: Door,
    agw: Door,
    ghost kiss_kind: { kiss.kind ≡ Kiss },
    ghost agw_kind: { agw.kind ≡ Agw },
}

impl Doors {
    /// Opens the ports at an address.
    pub(crate) fn open<R: Net>(rt: &R, poll: &Poll, at: Listen) -> io::Result<Doors> {
        let kiss = Door::open(rt, poll, PortKind::Kiss, KISS, at.address, at.kiss)?;
        let agw = Door::open(rt, poll, PortKind::Agw, AGW, at.address, at.agw)?;
        Ok(Doors { kiss, agw })
    }

    /// Notes that the system reported the port of a token.
    pub(crate) fn note(&mut self, token: usize) {
        if token == KISS {
            self.kiss.ready = true;
        } else {
            self.agw.ready = true;
        }
    }

    /// Takes the connections that wait.
    pub(crate) fn admit(
        &mut self,
        poll: &Poll,
        sockets: &mut Sockets,
        events: &mut Vec<HostEvent>,
    ) -> Result<(), OutOfMemory>
        ensures kiss_first { OnOk result ((between : List HostEvent) × (next : ℕ)
            × Admits Kiss events.old.items between sockets.old.next next
            × Admits Agw between events.new.items next sockets.new.next) }
    {
        self.kiss.admit(poll, sockets, events)?;
        self.agw.admit(poll, sockets, events)?;
        Ok(())
    }
}

impl Door {
    fn open<R: Net>(
        rt: &R,
        poll: &Poll,
        kind: PortKind,
        token: usize,
        address: Ipv4Addr,
        port: Option<u16>,
    ) -> io::Result<Door>
        ensures { IfOk result (λ door. door.kind ≡ kind) }
    {
        let Some(port) = port else {
            return Ok(Door {
                kind,
                listener: None,
                ready: false,
            });
        };
        let mut listener = TcpListener::bind(rt, SocketAddr::from((address, port)))?;
        poll.registry()
            .register(&mut listener, Token(token), Interest::READABLE)?;
        Ok(Door {
            kind,
            listener: Some(listener),
            ready: true,
        })
    }

    /// Takes the connections that wait.
    fn admit(
        &mut self,
        poll: &Poll,
        sockets: &mut Sockets,
        events: &mut Vec<HostEvent>,
    ) -> Result<(), OutOfMemory>
        ensures admits { OnOk result (Admits self.old.kind events.old.items events.new.items sockets.old.next
            sockets.new.next) }
        ensures kind { self.new.kind ≡ self.old.kind }
    {
        if !self.ready {
            return Ok(());
        }
        let Some(listener) = &self.listener else {
            return Ok(());
        };
        for _ in 0..MOST_JOINING {
            let Ok((stream, _)) = listener.accept() else {
                self.ready = false;
                return Ok(());
            };
            join(self.kind, poll, stream, sockets, events)?;
        }
        Ok(())
    }
}

/// Adds a connection that came, if it can be watched and an id is left.
fn join(
    kind: PortKind,
    poll: &Poll,
    stream: TcpStream,
    sockets: &mut Sockets,
    events: &mut Vec<HostEvent>,
) -> Result<(), OutOfMemory>
    ensures { OnOk result (Admits kind events.old.items events.new.items sockets.old.next sockets.new.next) }
{
    if let Some(id) = sockets.add(poll, stream)? {
        events.push(HostEvent::Joined { id, kind })?;
    }
    Ok(())
}
