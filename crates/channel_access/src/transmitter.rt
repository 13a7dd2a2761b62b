//! What an access keeps: the queue, the rules by which a transmission begins, and the one under way.
ghost use Rattle.std.specs.Prelude.{◌≡◌, ◌≤◌, ◌<◌, ◌↔◌, List, length, IfOk, IfErr, OnOk, IsErr, IsTrue};
ghost use Rattle.channel_access.specs.HeldTurns.{listening_of};
ghost use Rattle.channel_access.specs.Happenings.{Happening};
ghost use Rattle.channel_access.specs.Happenings.Happening.{Heard};
ghost use Rattle.channel_access.specs.Waiting.{IsWaiting};
ghost use Rattle.channel_access.specs.Words.{draw, after_word};
ghost use Rattle.hdlc_framer.specs.FrameLength.{HasFrameLength};

use crate::air_tick::{AirTick, SAMPLES, Sent};
use crate::listening::Listening;
use crate::modem::Modem;
use crate::parameters::{Param, Parameters};
use crate::queue::Queue;
use crate::sending::Sending;
use rand_core::utils::NextWord;
use rand_pcg::Lcg64Xsh32;
use std::alloc::Global;
use std::marker::Model;
use tnc_base::{Octets, OutOfMemory};

/// The stream of the generator that all seeds share.
const STREAM: u64 = 1;

#[derive(Drop)]
pub(crate) struct Transmitter {
    modem: Modem,
    queue: Queue,
    parameters: Parameters,
    generator: Lcg64Xsh32,
    /// The ticks that are left of a slot.
    slot: u8,
    sending: Option<Sending>,
    listening: Listening,
}

impl Model for Transmitter {
    ghost use Rattle.channel_access.specs.Held.{Held};

    ghost Value = { Held };

    ghost view = { λ a. record {
      modem = a.modem;
      waiting = a.queue;
      parameters = a.parameters;
      generator = a.generator;
      slot = a.slot;
      sending = a.sending;
      listening = a.listening;
    } };
}

impl Transmitter {
    ghost use Rattle.channel_access.specs.Channel.{decision, slot_in};
    ghost use Rattle.channel_access.specs.Held.{new_held, held_with_frame, held_with_setting, held_after};
    ghost use Rattle.channel_access.specs.HeldTick.{channel_of, with_held_decision, held_samples, held_sent};
    ghost use Rattle.channel_access.specs.HeldTick.{after_held_send, held_tick, after_held_tick};
    ghost use Rattle.channel_access.specs.HeldTaking.{held_takes, held_takes_last};

    /// No frame waits, the parameters are the defaults, and the draws are those of the seed.
    pub(crate) fn new(alloc: Global, modem: Modem, seed: u64) -> Result<Transmitter, OutOfMemory>
        ensures { IfOk result (λ transmitter. transmitter ≡ new_held modem seed) }
    {
        Ok(Transmitter {
            modem,
            queue: Queue::new(alloc)?,
            parameters: Parameters::new(),
            generator: Lcg64Xsh32::new(seed, STREAM),
            slot: 0,
            sending: None,
            listening: Listening::new(),
        })
    }

    /// Puts a frame after all others, or hands it back if 512 wait.
    pub(crate) fn queue(&mut self, link: Option<u32>, octets: Octets) -> Result<(), Octets>
        requires { HasFrameLength octets }
        ensures full { IsErr result ↔ (length self.old.waiting ≡ 512) }
        ensures handed_back { IfErr result (λ back. (back ≡ octets) × (self.new ≡ self.old)) }
        ensures queued { OnOk result (self.new ≡ held_with_frame link octets self.old) }
    {
        self.queue.push(link, octets)
    }

    pub(crate) fn set(&mut self, param: Param)
        ensures { self.new ≡ held_with_setting param self.old }
    {
        self.parameters.set(param);
    }

    pub(crate) fn parameters(&self) -> Parameters
        ensures { result ≡ self.now.parameters }
    {
        self.parameters
    }

    /// Whether a frame of the link waits.
    pub(crate) fn waiting(&self, link: u32) -> bool
        ensures { IsTrue result ↔ IsWaiting link self.now.waiting }
    {
        self.queue.holds(link)
    }

    pub(crate) fn len(&self) -> usize
        ensures count { result ≡ length self.now.waiting }
        ensures most { result ≤ 512 }
    {
        self.queue.len()
    }

    /// A frame was heard, which was an event of a link or not.
    pub(crate) fn hear(&mut self, ours: bool)
        ensures { (past : List Happening) → self.old.listening ≡ listening_of past
            → self.new ≡ held_after (Heard ours) past self.old }
    {
        self.listening.hear(ours);
    }

    /// Whether the next tick takes a frame of a link.
    pub(crate) fn takes_frame(&self) -> bool
        ensures { result ≡ held_takes self.now.sending self.now.waiting }
    {
        match &self.sending {
            Some(sending) => sending.takes_frame(&self.queue),
            None => false,
        }
    }

    /// Whether the next frame is the last.
    pub(crate) fn takes_last(&self) -> bool
        ensures { result ≡ held_takes_last self.now.sending }
    {
        match &self.sending {
            Some(sending) => sending.takes_last(),
            None => false,
        }
    }

    /// A tick, in which another station is heard or not, and a link wants to send or not.
    pub(crate) fn tick(&mut self, busy: bool, wants: bool) -> AirTick
        ensures tick { (past : List Happening) → self.old.listening ≡ listening_of past
            → result ≡ held_tick busy wants past self.old }
        ensures held { (past : List Happening) → self.old.listening ≡ listening_of past
            → self.new ≡ after_held_tick busy wants past self.old }
    {
        let began = self.sending.is_none() && self.begins(busy, wants);
        if began {
            self.sending = Some(Sending::new(self.modem, &self.parameters));
        }
        let own = self.sending.is_some();
        let (samples, sent) = self.send();
        self.listening.tick(busy, began, own);
        AirTick {
            samples,
            began,
            sent,
        }
    }

    /// Whether a transmission begins with this tick, at rest.
    fn begins(&mut self, busy: bool, wants: bool) -> bool
        ensures begins { (past : List Happening) → self.old.listening ≡ listening_of past
            → result ≡ (decision busy wants (channel_of past self.old)).begins }
        ensures held { (past : List Happening) → self.old.listening ≡ listening_of past
            → self.new ≡ with_held_decision (decision busy wants (channel_of past self.old)) self.old }
    {
        self.slot = self.slot_in(busy);
        if self.queue.len() == 0 && !wants {
            self.slot = self.slot.saturating_sub(1);
            return false;
        }
        if self.parameters.full_duplex {
            return true;
        }
        if busy {
            return false;
        }
        if self.listening.is_its_turn(self.parameters.slot_time) {
            return true;
        }
        if self.slot > 0 {
            self.slot -= 1;
            return false;
        }
        if self.draw() <= self.parameters.persist {
            return true;
        }
        self.slot = self.parameters.slot_time;
        false
    }

    /// The slot that this tick begins with.
    fn slot_in(&self, busy: bool) -> u8
        ensures { (past : List Happening) → self.now.listening ≡ listening_of past
            → result ≡ slot_in busy (channel_of past self.now) }
    {
        if busy || self.listening.was_quiet() {
            return self.slot;
        }
        if self.listening.is_spoken_to() {
            return 0;
        }
        self.parameters.slot_time
    }

    /// The low eight bits of the next word.
    fn draw(&mut self) -> u8
        ensures value { result ≡ draw self.old.generator }
        ensures held { self.new ≡ record self.old { generator = after_word self.old.generator } }
    {
        (self.generator.next_word() % 256) as u8
    }

    /// The samples of a tick of the transmission under way, or of silence, and the frame that is sent with it.
    fn send(&mut self) -> ([i16; SAMPLES], Option<Sent>)
        ensures samples { result.0 ≡ held_samples self.old.sending self.old.waiting }
        ensures sent { result.1 ≡ held_sent self.old.sending self.old.waiting }
        ensures held { self.new ≡ after_held_send self.old.sending self.old }
    {
        let Some(mut sending) = self.sending.take() else {
            return ([0; SAMPLES], None);
        };
        let tick = sending.tick(&mut self.queue);
        if !sending.is_over() {
            self.sending = Some(sending);
        }
        tick
    }
}
