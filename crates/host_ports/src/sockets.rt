//! The connections of the system, each with an id of its own.
ghost use Rattle.std.specs.Prelude.{◌≡◌, ◌≢◌, ◌==◌, ℕ, List, [], ◌∷◌, ◌++◌, ◌+◌, ◌<◌, ◌≤◌, false, not, filter, All};
ghost use Rattle.std.specs.Prelude.{length};
ghost use Rattle.std.specs.Prelude.{None, IfSome, IfNone, IfOk, OnOk, OnErr};
ghost use Rattle.std.specs.List.{slice_index_or};
ghost use Rattle.host_ports.specs.declared.socket.Socket.{Socket};
ghost use Rattle.host_ports.specs.Hosts.{is_among};
ghost use Rattle.host_ports.specs.RealSockets.{ids_of_sockets, joined_ids};
ghost use Rattle.host_ports.specs.Sockets.{MayCome};

use crate::clients::is_among;
use crate::socket::Socket;
use mio::net::TcpStream;
use mio::{Interest, Poll, Token};
use station::HostEvent;
use std::alloc::Global;
use std::marker::Model;
use tnc_base::OutOfMemory;

/// The first token of a connection. Those before it are of the ports that hosts connect to.
const FIRST: usize = 2;

/// The connections that are open, and the next id to be given.
#[derive(Drop)]
pub(crate) struct Sockets {
    list: Vec<Socket>,
    next_id: u32,
}

impl Model for Sockets {
    ghost use Rattle.host_ports.specs.RealSockets.{OpenIds, Rise, ids_of_sockets};

    ghost Value = { OpenIds };

    ghost view = { λ s. record { ids = ids_of_sockets s.list.items; next = s.next_id } };

    ghost invariant = { λ s. Rise 1 (ids_of_sockets s.list.items) s.next_id };
}

impl Sockets {
    /// No connection.
    pub(crate) fn new(alloc: Global) -> Sockets
        ensures { result ≡ record { ids = []; next = 1 } }
    {
        Sockets {
            list: Vec::new(alloc),
            next_id: 1,
        }
    }

    /// Adds a connection under the next id, and answers that. One that can't be watched, or for which no id is left,
    /// is dropped.
    pub(crate) fn add(
        &mut self,
        poll: &Poll,
        mut stream: TcpStream,
    ) -> Result<Option<u32>, OutOfMemory>
        ensures next { IfOk result (λ added. IfSome added (λ id. id ≡ self.old.next)) }
        ensures new { IfOk result (λ added. IfSome added (λ id. is_among id self.old.ids ≡ false)) }
        ensures added { IfOk result (λ added. IfSome added (λ id.
            self.new ≡ record { ids = self.old.ids ++ id ∷ []; next = id + 1 })) }
        ensures dropped { IfOk result (λ added. IfNone added (self.new ≡ self.old)) }
        ensures memory { OnErr result (self.new ≡ self.old) }
    {
        let id = self.next_id;
        let token = Token(id as usize + FIRST);
        let interests = Interest::READABLE | Interest::WRITABLE;
        if id == u32::MAX
            || poll
                .registry()
                .register(&mut stream, token, interests)
                .is_err()
        {
            return Ok(None);
        }
        // Each piece goes out at once: the system would gather pieces, and a host that reads two at a time may break.
        let _ = stream.set_nodelay(true);
        self.list.push(Socket {
            id,
            stream,
            ready: true,
            gone: false,
        })?;
        self.next_id = id + 1;
        Ok(Some(id))
    }

    /// Ends the connection of an id.
    pub(crate) fn remove(&mut self, id: u32)
        ensures { self.new ≡ record self.old { ids = filter (λ other. not (other == id)) self.old.ids } }
    {
        remove(id, &mut self.list);
    }

    /// Forgets the connections that have ended.
    pub(crate) fn remove_gone(&mut self)
        ensures { self.new.next ≡ self.old.next }
    {
        self.list.retain(|socket| !socket.gone);
    }

    /// Whether a connection that is not paused may have more octets.
    pub(crate) fn is_ready(&self, paused: &[u32]) -> bool {
        for socket in &self.list {
            if socket.ready && !paused.contains(&socket.id) {
                return true;
            }
        }
        false
    }

    /// Notes that the system reported the connection of a token.
    pub(crate) fn note(&mut self, token: usize)
        ensures { self.new ≡ self.old }
    {
        note_all(&mut self.list, token);
    }

    /// Takes a piece of each connection that may have more and is not paused.
    pub(crate) fn gather(
        &mut self,
        alloc: Global,
        paused: &[u32],
        events: &mut Vec<HostEvent>,
    ) -> Result<(), OutOfMemory>
        ensures kept { All (MayCome paused.now) events.old.items
            → OnOk result (All (MayCome paused.now) events.new.items) }
        ensures joined { OnOk result (joined_ids events.new.items ≡ joined_ids events.old.items) }
        ensures same { self.new ≡ self.old }
    {
        gather(alloc, &mut self.list, paused, events)
    }

    /// Writes what the connection of an id takes now, or `None` if it is not open or fails.
    pub(crate) fn write(&mut self, id: u32, octets: &[u8]) -> Option<usize>
        ensures count { IfSome result (λ count. count ≤ length octets.now) }
        ensures open { is_among id self.old.ids ≡ false → result ≡ None }
        ensures same { self.new ≡ self.old }
    {
        match place_of(id, &self.list) {
            Some(at) => self.list[at].write(id, octets),
            None => None,
        }
    }
}

/// The place of the connection of an id.
fn place_of(id: u32, sockets: &[Socket]) -> Option<usize>
    ensures within { IfSome result (λ at. at < length sockets.now) }
    ensures id { IfSome result (λ at. (d : Socket) → (slice_index_or sockets.now at d).id ≡ id) }
    ensures open { is_among id (ids_of_sockets sockets.now) ≡ false → result ≡ None }
{
    for (at, socket) in sockets.iter().enumerate() {
        if socket.id == id {
            return Some(at);
        }
    }
    None
}

fn remove(id: u32, sockets: &mut Vec<Socket>)
    ensures { sockets.new.items ≡ filter (λ socket. not (socket.id == id)) sockets.old.items }
{
    sockets.retain(|socket| socket.id != id);
}

fn note_all(sockets: &mut Vec<Socket>, token: usize)
    ensures { ids_of_sockets sockets.new.items ≡ ids_of_sockets sockets.old.items }
{
    for at in 0..sockets.len() {
        note_one(&mut sockets[at], token);
    }
}

fn note_one(socket: &mut Socket, token: usize)
    ensures { socket.new.id ≡ socket.old.id }
{
    if socket.id as usize + FIRST == token {
        socket.ready = true;
    }
}

fn gather(
    alloc: Global,
    sockets: &mut Vec<Socket>,
    paused: &[u32],
    events: &mut Vec<HostEvent>,
) -> Result<(), OutOfMemory>
    ensures kept { All (MayCome paused.now) events.old.items
        → OnOk result (All (MayCome paused.now) events.new.items) }
    ensures joined { OnOk result (joined_ids events.new.items ≡ joined_ids events.old.items) }
    ensures same { ids_of_sockets sockets.new.items ≡ ids_of_sockets sockets.old.items }
{
    for at in 0..sockets.len() {
        take_unpaused(alloc, &mut sockets[at], paused, events)?;
    }
    Ok(())
}

/// Takes a piece of a connection that may have more, unless it is paused.
fn take_unpaused(
    alloc: Global,
    socket: &mut Socket,
    paused: &[u32],
    events: &mut Vec<HostEvent>,
) -> Result<(), OutOfMemory>
    ensures kept { All (MayCome paused.now) events.old.items
        → OnOk result (All (MayCome paused.now) events.new.items) }
    ensures joined { OnOk result (joined_ids events.new.items ≡ joined_ids events.old.items) }
    ensures id { socket.new.id ≡ socket.old.id }
{
    if socket.ready && !is_among(socket.id, paused) {
        socket.take_piece(alloc, events)?;
    }
    Ok(())
}
