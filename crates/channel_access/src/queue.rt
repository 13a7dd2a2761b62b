//! The frames that wait to be sent.
ghost use Rattle.std.specs.Prelude.{◌≡◌, ◌≤◌, ◌<◌, ◌↔◌, List, [], ◌∷◌, ◌++◌, length, drop, Ok, IfOk, OnOk, IfErr};
ghost use Rattle.std.specs.Prelude.{IsErr, IfSome, IsTrue, option_map, slice_get};
ghost use Rattle.std.specs.List.{list_any};
ghost use Rattle.std.specs.Option.{option_copied};
ghost use Rattle.channel_access.specs.Channel.{is_of_link};
ghost use Rattle.channel_access.specs.Waiting.{WaitingFrame, IsWaiting};
ghost use Rattle.hdlc_framer.specs.FrameLength.{HasFrameLength};

use circular_buffer::HeapCircularBuffer;
use std::alloc::Global;
use std::marker::Model;
use tnc_base::{Octets, OutOfMemory};

/// How many frames may wait.
const CAPACITY: usize = 512;

/// A frame that waits.
#[derive(Drop)]
pub(crate) struct Waiting {
    /// The link that it belongs to.
    link: Option<u32>,
    octets: Octets,
}

impl Model for Waiting {
    ghost use Rattle.channel_access.specs.Waiting.{WaitingFrame};
    ghost use Rattle.hdlc_framer.specs.FrameLength.{HasFrameLength};

    ghost Value = { WaitingFrame };

    ghost view = { λ w. record { link = w.link; octets = w.octets } };

    ghost invariant = { λ w. HasFrameLength w.octets };
}

impl Waiting {
    fn is_of(&self, link: u32) -> bool
        ensures { IsTrue result ↔ (self.now.link ≡ Some link) }
    {
        self.link == Some(link)
    }

    fn is_of_links(&self) -> bool
        ensures { result ≡ is_of_link self.now }
    {
        self.link.is_some()
    }

    fn octets(&self) -> &Octets
        ensures octets { result.now ≡ self.now.octets }
        ensures length { HasFrameLength self.now.octets }
    {
        &self.octets
    }

    fn into_octets(self) -> Octets
        ensures { result ≡ self.octets }
    {
        self.octets
    }
}

/// At most 512 frames, the first to be sent at the front.
#[derive(Drop)]
pub(crate) struct Queue {
    frames: HeapCircularBuffer<Waiting>,
}

impl Model for Queue {
    ghost use Rattle.std.specs.Prelude.{◌≡◌, ◌≤◌, List, length};
    ghost use Rattle.channel_access.specs.Waiting.{WaitingFrame};

    ghost Value = { List WaitingFrame };

    ghost view = { λ queue. queue.frames.items };

    ghost invariant = { λ queue. (queue.frames.capacity ≡ 512) × (length queue.frames.items ≤ 512) };
}

impl Queue {
    /// Empty. All memory is taken here.
    pub(crate) fn new(alloc: Global) -> Result<Queue, OutOfMemory>
        ensures { IfOk result (λ queue. queue ≡ []) }
    {
        Ok(Queue {
            frames: HeapCircularBuffer::with_capacity(alloc, CAPACITY)?,
        })
    }

    /// Puts a frame at the back, or hands it back if 512 wait.
    pub(crate) fn push(&mut self, link: Option<u32>, octets: Octets) -> Result<(), Octets>
        requires { HasFrameLength octets }
        ensures full { IsErr result ↔ (length self.old ≡ 512) }
        ensures handed_back { IfErr result (λ back. (back ≡ octets) × (self.new ≡ self.old)) }
        ensures pushed { OnOk result (self.new ≡ self.old ++ (record { link = link; octets = octets }) ∷ []) }
    {
        match self.frames.try_push_back(Waiting { link, octets }) {
            Ok(()) => Ok(()),
            Err(waiting) => Err(waiting.into_octets()),
        }
    }

    /// The octets of the front frame.
    pub(crate) fn front(&self) -> Option<&[u8]>
        ensures octets { option_copied result ≡ option_map (λ frame. frame.octets) (slice_get self.now 0) }
        ensures length { IfSome result (λ octets. HasFrameLength octets.now) }
    {
        let frame = self.frames.front()?;
        Some(frame.octets().as_slice())
    }

    /// Takes the front frame.
    pub(crate) fn pop(&mut self) -> Option<Octets>
        ensures octets { result ≡ option_map (λ frame. frame.octets) (slice_get self.old 0) }
        ensures others { self.new ≡ drop 1 self.old }
    {
        let frame = self.frames.pop_front()?;
        Some(frame.into_octets())
    }

    pub(crate) fn len(&self) -> usize
        ensures count { result ≡ length self.now }
        ensures most { result ≤ 512 }
    {
        self.frames.len()
    }

    /// Whether a frame of a link waits after so many.
    pub(crate) fn holds_of_links(&self, after: usize) -> bool
        ensures { result ≡ list_any is_of_link (drop after self.now) }
    {
        self.frames
            .iter()
            .skip(after)
            .any(|frame| frame.is_of_links())
    }

    /// Whether a frame of the link waits.
    pub(crate) fn holds(&self, link: u32) -> bool
        ensures { IsTrue result ↔ IsWaiting link self.now }
    {
        self.frames.iter().any(|frame| frame.is_of(link))
    }
}
