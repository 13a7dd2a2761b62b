//! What the layer above asks for.
ghost use Rattle.std.specs.Prelude.{◌<◌, ◌≤◌, length};
ghost use Rattle.link_machine.specs.Turn.{Turn, changing};
ghost use Rattle.link_machine.specs.Requests.{connect, joined, disconnect, withdraw, give_up};
ghost use Rattle.link_machine.specs.Room.{frames_left, told_left};
ghost use Rattle.link_machine.specs.Held.{IsWhole, Shows, Makes, frames_to_close};

use crate::acts::{Acts, Why};
use crate::machine::Machine;
use crate::room::Room;
use crate::state::LinkState;
use ax25_frames::U;
use selective_reject::Packet;
use std::alloc::Global;
use tnc_base::OutOfMemory;

impl Machine {
    /// Calls.
    pub(crate) fn take_connect(&mut self, alloc: Global) -> Result<Acts, OutOfMemory>
        requires { IsWhole self.old }
        ensures { Makes connect self.old self.new result }
    {
        let mut room = Room::new(alloc, 1, 0)?;
        self.connect(&mut room);
        Ok(room.finish())
    }

    /// Takes a packet to be sent.
    pub(crate) fn take_packet(&mut self, alloc: Global, packet: Packet) -> Result<Acts, OutOfMemory>
        requires whole { IsWhole self.old }
        requires room { length self.old.outgoing.packets < 1024 }
        ensures { Makes (changing (joined packet)) self.old self.new result }
    {
        let mut room = Room::new(alloc, 1, 0)?;
        let _ = self.outgoing.push(packet);
        self.settle(&mut room);
        Ok(room.finish())
    }

    /// Disconnects: a call at once, a link that is up once all packets are acknowledged, or at once if that was asked
    /// for before.
    pub(crate) fn take_disconnect(&mut self, alloc: Global) -> Result<Acts, OutOfMemory>
        requires { IsWhole self.old }
        ensures { Makes disconnect self.old self.new result }
    {
        let mut room = Room::new(alloc, 1, 1)?;
        self.disconnect(&mut room);
        self.settle(&mut room);
        Ok(room.finish())
    }

    fn disconnect(&mut self, room: &mut Room)
        requires frames { 1 ≤ frames_left room.old }
        requires told { 1 ≤ told_left room.old }
        ensures shows { (t : Turn) → Shows self.old room.old t → Shows self.new room.new (disconnect t) }
        ensures left { frames_to_close self.new ≤ frames_left room.new }
    {
        match self.control.state {
            LinkState::Idle | LinkState::Releasing => {}
            LinkState::Calling => self.withdraw(room),
            LinkState::Up if self.control.quit => self.give_up(room),
            LinkState::Up => self.control.quit = true,
        }
    }

    /// Takes a call back. The other side may have heard it and have a set-up, which DM ends.
    fn withdraw(&mut self, room: &mut Room)
        requires frames { 1 ≤ frames_left room.old }
        requires told { 1 ≤ told_left room.old }
        ensures shows { (t : Turn) → Shows self.old room.old t → Shows self.new room.new (withdraw t) }
        ensures left { frames_to_close self.new ≤ frames_left room.new }
    {
        self.send_setup(room, U::Dm, false);
        self.end_call(room, Why::Asked);
    }

    /// Releases the link, and gives up the packets that wait.
    fn give_up(&mut self, room: &mut Room)
        requires { 1 ≤ frames_left room.old }
        ensures shows { (t : Turn) → Shows self.old room.old t → Shows self.new room.new (give_up t) }
        ensures left { frames_to_close self.new ≤ frames_left room.new }
    {
        self.empty();
        self.release(room);
    }
}
