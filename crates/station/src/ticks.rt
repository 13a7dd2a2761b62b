//! A tick of the links and of the channel, which may take a frame of one of them.
ghost use Rattle.std.specs.Prelude.{◌≡◌, ◌||◌, ◌&&◌, not, IfOk, OnOk, true, OnErr};
ghost use Rattle.station.specs.Asking.{asking};
ghost use Rattle.station.specs.Held.{ids_in};
ghost use Rattle.station.specs.StandsFor.{Shows};
ghost use Rattle.station.specs.State.{one_more};
ghost use Rattle.station.specs.Ticks.{IsTick, air_in, ticking_at, ticking_links};
ghost use Rattle.station.specs.Turn.{Turn};

use crate::host_out::HostOut;
use crate::link_event::LinkEvent;
use crate::link_table::MOST_LINKS;
use crate::memory::Memory;
use crate::parts::Parts;
use channel_access::AirTick;
use tnc_base::OutOfMemory;

impl Parts {
    /// A tick of each link, and then of the channel. Before the channel's, a link is asked for a frame if the channel
    /// takes one. Hosts that monitor are shown the frame whose sending has ended, and the host that asked is told of
    /// it.
    pub(crate) fn tick(
        &mut self,
        memory: &mut Memory,
        out: &mut HostOut,
        busy: bool,
    ) -> Result<AirTick, OutOfMemory>
        ensures air { (turn : Turn) → Shows self.old out.old turn → IfOk result (λ air. air ≡ air_in busy turn) }
        ensures step { (turn : Turn) → Shows self.old out.old turn → OnOk result ((after : Turn)
            × IsTick busy turn after × Shows self.new out.new after) }
        ensures ids { OnOk result (ids_in self.new ≡ ids_in self.old) }
        ensures wanted { OnErr result (memory.new.refused ≡ true) }
    {
        self.tick_links(memory, out, busy)?;
        self.ask_link(memory, out)?;
        let wants = self.links.some_wants();
        let air = self.channel.tick(busy, wants);
        self.monitor_sent(memory, out, &air.sent)?;
        self.tell_sent(memory, out, &air.sent)?;
        self.ticks = one_more(self.ticks);
        Ok(air)
    }

    /// A tick of each link, in the order of their keys.
    fn tick_links(
        &mut self,
        memory: &mut Memory,
        out: &mut HostOut,
        busy: bool,
    ) -> Result<(), OutOfMemory>
        ensures shows { (turn : Turn) → Shows self.old out.old turn
            → OnOk result (Shows self.new out.new (ticking_links busy turn)) }
        ensures ids { OnOk result (ids_in self.new ≡ ids_in self.old) }
        ensures wanted { OnErr result (memory.new.refused ≡ true) }
    {
        for key in 0..MOST_LINKS {
            self.tick_link(memory, out, key, busy)?;
        }
        Ok(())
    }

    /// Asks the next link that wants to send for a frame, if the channel takes one.
    fn ask_link(&mut self, memory: &mut Memory, out: &mut HostOut) -> Result<(), OutOfMemory>
        ensures shows { (turn : Turn) → Shows self.old out.old turn
            → OnOk result (Shows self.new out.new (asking turn)) }
        ensures ids { OnOk result (ids_in self.new ≡ ids_in self.old) }
        ensures wanted { OnErr result (memory.new.refused ≡ true) }
    {
        if !self.channel.takes_frame() {
            return Ok(());
        }
        let Some(key) = self.links.next_wanting(self.asked) else {
            return Ok(());
        };
        let last = self.channel.takes_last();
        let full_duplex = self.channel.parameters().full_duplex;
        self.asked = key;
        self.link_event(memory, out, key, LinkEvent::Seize(last, full_duplex))
    }

    /// A tick of the link that a key has, which is told whether T1 stands still.
    fn tick_link(
        &mut self,
        memory: &mut Memory,
        out: &mut HostOut,
        key: u32,
        busy: bool,
    ) -> Result<(), OutOfMemory>
        ensures shows { (turn : Turn) → Shows self.old out.old turn
            → OnOk result (Shows self.new out.new (ticking_at busy key turn)) }
        ensures ids { OnOk result (ids_in self.new ≡ ids_in self.old) }
        ensures wanted { OnErr result (memory.new.refused ≡ true) }
    {
        let waits = self.channel.waiting(key);
        let full_duplex = self.channel.parameters().full_duplex;
        let still = stands_still(waits, busy, full_duplex);
        self.link_event(memory, out, key, LinkEvent::Tick(still))
    }
}

/// Whether T1 of a link stands still: a frame of it waits or is on the air, or the channel is busy in half duplex.
fn stands_still(waits: bool, busy: bool, full_duplex: bool) -> bool
    ensures { result ≡ (waits || (busy && not full_duplex)) }
{
    waits || (busy && !full_duplex)
}

/// One more. The count stays at the greatest number of 64 bits.
fn one_more(count: u64) -> u64
    ensures { result ≡ one_more count }
{
    count.saturating_add(1)
}
