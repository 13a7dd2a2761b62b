//! The line of bits, seen bit by bit: where zeros were inserted, where flags and aborts are, and what came since a flag.

ghost use Rattle.std.specs.Prelude.{◌≡◌, ℕ, Bool, true, false, List, ◌++◌, Some, None, ◌≤◌, ◌||◌};
ghost use Rattle.std.specs.List.{fold};
ghost use Rattle.hdlc_framer.specs.BitOrder.{octet_bits, sent_bits};
ghost use Rattle.hdlc_framer.specs.Frames.{IsFrame, with_fcs};
ghost use Rattle.hdlc_framer.specs.Held.{new_line, open_line, next_line, longer, flag_start};

use crate::content::Content;
use crate::event::Event;
use crate::octet_step::octet_step;
use std::marker::Model;

// Steps below this one have plain bits alone.
const PLAIN: u8 = 8;

// Steps below this one end no flag and no abort.
const QUIET: u8 = 16;

#[derive(Drop)]
pub struct LineState {
    ones: u8,
    after_zero: bool,
    active: bool,
    content: Content,
}

impl Model for LineState {
    ghost use Rattle.std.specs.Prelude.{◌≤◌, Some, None, if◌then◌else◌};
    ghost use Rattle.hdlc_framer.specs.Held.{Line};

    ghost Value = { Line };

    ghost view = { λ s. record {
      ones = s.ones;
      after_zero = s.after_zero;
      content = if s.active then Some s.content
          else None;
    } };

    ghost invariant = { λ s. s.ones ≤ 7 };
}

impl LineState {
    ghost use Rattle.hdlc_framer.specs.LineEvents.{LineEvent};
    ghost use Rattle.hdlc_framer.specs.OctetSteps.{are_quiet, has_zero, octet_step};

    pub fn new() -> Self
        ensures { result ≡ new_line }
    {
        LineState {
            ones: 0,
            after_zero: false,
            active: false,
            content: Content::new(),
        }
    }

    // The line right after a flag.
    pub fn open(&mut self)
        ensures { self.new ≡ open_line }
    {
        self.ones = 0;
        self.after_zero = true;
        self.active = true;
        self.content.clear();
    }

    // What the next bit ends.
    pub fn event(&self, bit: bool) -> Event
        ensures { LineEvent self.now bit result }
    {
        if bit {
            return if self.ones == 6 {
                Event::Abort
            } else {
                Event::None
            };
        }
        if self.ones != 6 || !self.after_zero {
            return Event::None;
        }
        if self.active && self.content.is_frame() {
            Event::Frame
        } else {
            Event::Flag
        }
    }

    pub fn next(&mut self, bit: bool)
        ensures { self.new ≡ next_line self.old bit }
    {
        if bit { self.one() } else { self.zero() }
    }

    // Takes eight bits at once, the lowest of an octet first, if none of them ends anything or is to be left out.
    pub fn take_octet(&mut self, octet: u8) -> bool
        ensures taken { result ≡ true → self.new ≡ fold next_line self.old (octet_bits octet) }
        ensures quiet { result ≡ true → are_quiet self.old.ones (octet_bits octet) ≡ true }
        ensures left { result ≡ false → self.new ≡ self.old }
    {
        let step = octet_step(self.ones, octet);
        if self.active {
            self.take_plain(step, octet)
        } else {
            self.pass(step, octet)
        }
    }

    // Takes plain bits as content.
    fn take_plain(&mut self, step: u8, octet: u8) -> bool
        requires step { step ≡ octet_step self.old.ones octet }
        requires active { (content : List Bool) × (self.old.content ≡ Some content) }
        ensures taken { result ≡ true → self.new ≡ fold next_line self.old (octet_bits octet) }
        ensures quiet { result ≡ true → are_quiet self.old.ones (octet_bits octet) ≡ true }
        ensures left { result ≡ false → self.new ≡ self.old }
    {
        if step >= PLAIN || !self.content.has_room_for_octet() {
            return false;
        }
        self.content.push_octet(octet);
        self.go_on(step, octet);
        true
    }

    // Takes bits of no content.
    fn pass(&mut self, step: u8, octet: u8) -> bool
        requires step { step ≡ octet_step self.old.ones octet }
        requires idle { self.old.content ≡ None }
        requires ones { self.old.ones ≤ 7 }
        ensures taken { result ≡ true → self.new ≡ fold next_line self.old (octet_bits octet) }
        ensures quiet { result ≡ true → are_quiet self.old.ones (octet_bits octet) ≡ true }
        ensures left { result ≡ false → self.new ≡ self.old }
    {
        if step >= QUIET {
            return false;
        }
        self.go_on(step % PLAIN, octet);
        true
    }

    // Goes on after the bits of an octet, which end with so many 1s.
    fn go_on(&mut self, ones: u8, octet: u8)
        requires { ones ≤ 7 }
        ensures { self.new
            ≡ record self.old { ones = ones; after_zero = has_zero (octet_bits octet) || self.old.after_zero } }
    {
        self.ones = ones;
        if octet != 0xff {
            self.after_zero = true;
        }
    }

    fn one(&mut self)
        ensures { self.new ≡ next_line self.old true }
    {
        match self.ones {
            0..=4 => {
                self.ones += 1;
                self.take(true);
            }
            5 => self.ones = 6,
            _ => {
                self.ones = 7;
                self.active = false;
            }
        }
    }

    fn zero(&mut self)
        ensures { self.new ≡ next_line self.old false }
    {
        match self.ones {
            0..=4 => self.take(false),
            5 => {}
            6 if self.after_zero => self.open(),
            _ => self.active = false,
        }
        self.ones = 0;
        self.after_zero = true;
    }

    // Keeps a bit of the content, or gives the content up if it is too long for a frame.
    fn take(&mut self, bit: bool)
        ensures { self.new ≡ record self.old { content = longer self.old.content bit } }
    {
        if self.active {
            if self.content.has_room() {
                self.content.push(bit);
            } else {
                self.active = false;
            }
        }
    }

    pub fn frame(&self) -> &[u8]
        requires { (octets : List ℕ)
            × (self.now.content ≡ Some (sent_bits (with_fcs octets) ++ flag_start)) × IsFrame octets }
        ensures { (octets : List ℕ) → IsFrame octets
            → self.now.content ≡ Some (sent_bits (with_fcs octets) ++ flag_start) → result.now ≡ octets }
    {
        self.content.frame()
    }
}
