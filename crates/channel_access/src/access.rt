//! The queue and the channel.
ghost use Rattle.std.specs.Prelude.{◌≡◌, ◌≤◌, ◌<◌, ◌↔◌, length, IfOk, IfErr, OnOk, IsErr, IsTrue};
ghost use Rattle.channel_access.specs.Waiting.{IsWaiting};
ghost use Rattle.hdlc_framer.specs.FrameLength.{HasFrameLength};

use crate::air_tick::AirTick;
use crate::modem::Modem;
use crate::parameters::{Param, Parameters};
use crate::transmitter::Transmitter;
use std::alloc::Global;
use std::marker::Model;
use tnc_base::{Octets, OutOfMemory};

/// A transmit queue of at most 512 frames and the rules by which it is sent. It stands for the channel that the calls
/// so far have made, and after [`Access::new`] takes no memory.
#[derive(Drop)]
pub struct Access {
    transmitter: Transmitter,
}

impl Model for Access {
    ghost use Rattle.channel_access.specs.Held.{Held};
    ghost use Rattle.channel_access.specs.StandsFor.{StandsForSome};

    ghost Value = { Held };

    ghost view = { λ a. a.transmitter };

    ghost invariant = { λ a. StandsForSome a.transmitter };
}

impl Access {
    ghost use Rattle.channel_access.specs.Channel.{Channel, new_channel_by, with_frame, with_setting, with_heard};
    ghost use Rattle.channel_access.specs.Channel.{takes_frame, takes_last, air_tick, after_tick, Takes};
    ghost use Rattle.channel_access.specs.StandsFor.{StandsFor, StandsForSome};

    /// No frame waits, and the parameters are the defaults: TXDELAY 30, P 63, slot time 10, TXtail 2, half duplex. The
    /// draws are those of the seed. All is sent by the modem. The 512 places are taken here; fails only for want of
    /// memory.
    pub fn new(alloc: Global, modem: Modem, seed: u64) -> Result<Access, OutOfMemory>
        ensures { IfOk result (λ access. StandsFor access (new_channel_by modem seed)) }
    {
        Ok(Access {
            transmitter: Transmitter::new(alloc, modem, seed)?,
        })
    }

    /// Puts a frame of 15 to 1024 octets, without its check sequence, after all others. Hands it back exactly when
    /// 512 wait. `link` is the key of the link that it belongs to.
    pub fn queue(&mut self, link: Option<u32>, octets: Octets) -> Result<(), Octets>
        requires { HasFrameLength octets }
        ensures stood { StandsForSome self.old }
        ensures full { IsErr result ↔ (length self.old.waiting ≡ 512) }
        ensures handed_back { IfErr result (λ back. (back ≡ octets) × (self.new ≡ self.old)) }
        ensures stands_for { (channel : Channel) → StandsFor self.old channel
            → OnOk result (StandsFor self.new (with_frame link octets channel)) }
    {
        self.transmitter.queue(link, octets)
    }

    /// Sets a parameter. The next transmission uses it; one under way goes on with what it began with.
    pub fn set(&mut self, param: Param)
        ensures { (channel : Channel) → StandsFor self.old channel → StandsFor self.new (with_setting param channel) }
    {
        self.transmitter.set(param);
    }

    /// The parameters as they are set, also while a transmission goes on with others.
    pub fn parameters(&self) -> Parameters
        ensures { (channel : Channel) → StandsFor self.now channel → result ≡ channel.parameters }
    {
        self.transmitter.parameters()
    }

    /// A frame was heard; `ours` says whether it was an event of one of the station's links. Whoever was spoken to
    /// answers without a slot, and without a draw if the channel had been quiet for a slot before.
    pub fn heard(&mut self, ours: bool)
        ensures { (channel : Channel) → StandsFor self.old channel → StandsFor self.new (with_heard ours channel) }
    {
        self.transmitter.hear(ours);
    }

    /// Whether the next tick takes a frame of a link: the opening flags or a frame end with it, the transmission has
    /// fewer than eight frames, and no frame of a link waits to follow. Then a link that wants to send makes one and
    /// [`queue`](Access::queue)s it before that tick. At rest none is taken.
    pub fn takes_frame(&self) -> bool
        ensures { (channel : Channel) → StandsFor self.now channel → result ≡ takes_frame channel }
    {
        self.transmitter.takes_frame()
    }

    /// Whether the transmission ends with the frame that it takes next, the eighth.
    pub fn takes_last(&self) -> bool
        ensures { (channel : Channel) → StandsFor self.now channel → result ≡ takes_last channel }
    {
        self.transmitter.takes_last()
    }

    /// A tick of 10 ms; `busy` says whether another station is heard, and `wants` whether a link wants to send. At rest
    /// it decides whether a transmission begins, and that begins at once, with its opening flags. The frame that waits
    /// when they end, or when the frame before it ends, joins it, up to eight. If none waits, the closing flags follow.
    pub fn tick(&mut self, busy: bool, wants: bool) -> AirTick
        ensures stood { StandsForSome self.old }
        ensures tick { (channel : Channel) → StandsFor self.old channel → result ≡ air_tick busy wants channel }
        ensures stands_for { (channel : Channel) → StandsFor self.old channel
            → StandsFor self.new (after_tick busy wants channel) }
        ensures order { (channel : Channel) → StandsFor self.old channel
            → Takes result.sent channel.waiting (after_tick busy wants channel).waiting }
    {
        self.transmitter.tick(busy, wants)
    }

    /// Whether a frame of the link waits. A frame waits until a tick names it as sent.
    pub fn waiting(&self, link: u32) -> bool
        ensures { IsTrue result ↔ IsWaiting link self.now.waiting }
    {
        self.transmitter.waiting(link)
    }

    /// How many frames wait.
    pub fn len(&self) -> usize
        ensures count { result ≡ length self.now.waiting }
        ensures most { result ≤ 512 }
    {
        self.transmitter.len()
    }
}
