//! What a step of the station says to connections.
ghost use Rattle.std.specs.Prelude.{◌≡◌, false, true, ℕ, OnOk};
ghost use Rattle.host_ports.specs.HeldHosts.{Moves, Narrows, is_named};
ghost use Rattle.host_ports.specs.Hosts.{appending, appending_one, appending_to, closing_all, closing_one, delivering};
ghost use Rattle.host_ports.specs.Hosts.{is_among, client_of};

use crate::clients::{is_among, is_there, place_of};
use crate::host_parts::HostParts;
use crate::outgoing::AppendFault;
use station::{HostOut, Piece};
use tnc_base::OutOfMemory;

impl HostParts {
    /// Each piece waits whole for its connection, or the connection is shut; those that the step closes are shut.
    pub(crate) fn deliver(&mut self, out: &HostOut) -> Result<(), OutOfMemory>
        ensures moves { OnOk result (Moves (delivering out.now) self.old self.new) }
        ensures narrows { OnOk result (Narrows self.old self.new) }
        ensures gone { OnOk result ((id : ℕ) → is_among id out.now.closed ≡ true → is_named id self.new ≡ false) }
    {
        self.append_all(&out.closed, &out.pieces)?;
        self.close_all(&out.closed)
    }

    fn append_all(&mut self, closed: &[u32], pieces: &[Piece]) -> Result<(), OutOfMemory>
        ensures moves { OnOk result (Moves (appending closed.now pieces.now) self.old self.new) }
        ensures narrows { OnOk result (Narrows self.old self.new) }
    {
        for piece in pieces {
            self.append_one(closed, piece)?;
        }
        Ok(())
    }

    /// A piece waits for its connection, unless the step closes that.
    fn append_one(&mut self, closed: &[u32], piece: &Piece) -> Result<(), OutOfMemory>
        ensures moves { OnOk result (Moves (appending_one closed.now piece.now) self.old self.new) }
        ensures narrows { OnOk result (Narrows self.old self.new) }
    {
        if is_among(piece.id, closed) {
            return Ok(());
        }
        self.append(piece)
    }

    /// A piece waits whole for its connection, or the connection is shut.
    fn append(&mut self, piece: &Piece) -> Result<(), OutOfMemory>
        ensures moves { OnOk result (Moves
            (λ hosts. appending_to (client_of piece.now.id hosts.clients) piece.now hosts) self.old self.new) }
        ensures narrows { OnOk result (Narrows self.old self.new) }
    {
        let Some(at) = place_of(piece.id, &self.clients) else {
            return Ok(());
        };
        match self.clients[at].waiting.append(piece.octets.as_slice()) {
            Ok(()) => Ok(()),
            Err(AppendFault::Full) => self.cut(piece.id),
            Err(AppendFault::Memory) => Err(OutOfMemory),
        }
    }

    fn close_all(&mut self, closed: &[u32]) -> Result<(), OutOfMemory>
        ensures moves { OnOk result (Moves (closing_all closed.now) self.old self.new) }
        ensures narrows { OnOk result (Narrows self.old self.new) }
        ensures gone { OnOk result ((id : ℕ) → is_among id closed.now ≡ true → is_named id self.new ≡ false) }
    {
        for id in closed {
            self.close_one(*id)?;
        }
        Ok(())
    }

    /// A connection that the step closes is shut, if it is there.
    fn close_one(&mut self, id: u32) -> Result<(), OutOfMemory>
        ensures moves { OnOk result (Moves (closing_one id) self.old self.new) }
        ensures narrows { OnOk result (Narrows self.old self.new) }
        ensures gone { OnOk result (is_named id self.new ≡ false) }
    {
        if is_there(id, &self.clients) {
            self.close(id)
        } else {
            self.forget(id);
            Ok(())
        }
    }
}
