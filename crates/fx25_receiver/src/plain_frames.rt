//! The plain frames of a lane.
//!
//! A frame ends only with a flag, and the last eight bits tell one. So bits that come one by one wait until there are eight,
//! of which nearly all can be taken at once, or until a flag comes. The bits that wait are the last of those that the
//! reader of blocks keeps, so a caller names them.
ghost use Rattle.std.specs.Prelude.{◌≡◌, ◌+◌, ◌<◌, ◌≤◌, ◌/◌, ◌^◌, ℕ, Bool, List, [], ◌∷◌, ◌++◌, drop, take, true, false};
ghost use Rattle.hdlc_framer.specs.BitOrder.{octet_bits};
ghost use Rattle.hdlc_framer.specs.Frames.{IsFrame, EndsFrame};
ghost use Rattle.hdlc_framer.specs.Held.{HoldsFrame, StandsFor as DeframerStandsFor};
ghost use Rattle.hdlc_framer.specs.Late.{StandsFor};
ghost use Rattle.fx25_receiver.specs.Resting.{IsLast64};

use crate::resting_reader::may_end_frame_in;
use hdlc_framer::{Deframer, Event, push_bits, push_whole_octet};
use std::marker::Model;

/// The flag as an octet.
const FLAG: u8 = 0x7E;

/// So many bits wait at most.
const MOST_WAITING: u8 = 8;

/// A deframer, and how many of the last bits it has not taken.
#[derive(Drop)]
pub(crate) struct PlainFrames {
    deframer: Deframer,
    waiting: u8,
}

impl Model for PlainFrames {
    ghost use Rattle.std.specs.Prelude.{◌≤◌};
    ghost use Rattle.fx25_receiver.specs.Held.{HeldFrames};

    ghost Value = { HeldFrames };

    ghost view = { λ s. record { deframer = s.deframer; waiting = s.waiting } };

    ghost invariant = { λ s. s.waiting ≤ 8 };
}

impl PlainFrames {
    /// No bit was taken.
    pub(crate) fn new() -> PlainFrames
        ensures { StandsFor result.deframer 0 result.waiting [] }
    {
        PlainFrames {
            deframer: Deframer::new(),
            waiting: 0,
        }
    }

    /// Takes the next bit, and says whether a frame ends with it. The last eight bits were `last` before it, and are `now`
    /// with it. Most bits only wait, so a lane does this much itself.
    #[inline(always)]
    pub(crate) fn push(&mut self, last: u8, now: u8) -> bool
        ensures stands_for { (b : List Bool) (bit : Bool) → octet_bits now ≡ drop 1 (octet_bits last) ++ bit ∷ []
            → StandsFor self.old.deframer last self.old.waiting b
            → StandsFor self.new.deframer now self.new.waiting (b ++ bit ∷ []) }
        ensures holds { result ≡ true
            → (octets : List ℕ) × IsFrame octets × HoldsFrame self.new.deframer octets }
        ensures heard { (b : List Bool) (bit : Bool) → octet_bits now ≡ drop 1 (octet_bits last) ++ bit ∷ []
            → StandsFor self.old.deframer last self.old.waiting b
            → result ≡ true → (octets : List ℕ) × EndsFrame (b ++ bit ∷ []) octets }
        ensures frame { (b : List Bool) (bit : Bool) (octets : List ℕ)
            → octet_bits now ≡ drop 1 (octet_bits last) ++ bit ∷ []
            → StandsFor self.old.deframer last self.old.waiting b → EndsFrame (b ++ bit ∷ []) octets
            → (result ≡ true) × HoldsFrame self.new.deframer octets }
    {
        self.make_room(last);
        self.put_off();
        if now != FLAG {
            return false;
        }
        self.catch_up(now)
    }

    /// Takes the bits that wait, if they are eight.
    #[inline(always)]
    fn make_room(&mut self, last: u8)
        ensures stands_for { (b : List Bool) → StandsFor self.old.deframer last self.old.waiting b
            → StandsFor self.new.deframer last self.new.waiting b }
        ensures room { self.new.waiting < 8 }
    {
        if self.waiting == MOST_WAITING {
            push_whole_octet(&mut self.deframer, last);
            self.waiting = 0;
        }
    }

    /// One bit more waits.
    fn put_off(&mut self)
        requires { self.old.waiting < 8 }
        ensures stands_for { (b : List Bool) (bit : Bool) (last now : ℕ)
            → octet_bits now ≡ drop 1 (octet_bits last) ++ bit ∷ []
            → StandsFor self.old.deframer last self.old.waiting b
            → StandsFor self.new.deframer now self.new.waiting (b ++ bit ∷ []) }
        ensures some { self.new.waiting ≡ self.old.waiting + 1 }
    {
        self.waiting += 1;
    }

    /// Takes the bits that wait, of which the last ends a flag, and says whether a frame ends with it.
    fn catch_up(&mut self, last: u8) -> bool
        requires some { 1 ≤ self.old.waiting }
        requires flag { last ≡ 126 }
        ensures stands_for { (b : List Bool) → StandsFor self.old.deframer last self.old.waiting b
            → StandsFor self.new.deframer last self.new.waiting b }
        ensures holds { result ≡ true
            → (octets : List ℕ) × IsFrame octets × HoldsFrame self.new.deframer octets }
        ensures heard { (b : List Bool) → StandsFor self.old.deframer last self.old.waiting b
            → result ≡ true → (octets : List ℕ) × EndsFrame b octets }
        ensures frame { (b : List Bool) (octets : List ℕ)
            → StandsFor self.old.deframer last self.old.waiting b → EndsFrame b octets
            → (result ≡ true) × HoldsFrame self.new.deframer octets }
    {
        let first = MOST_WAITING - self.waiting;
        push_bits(&mut self.deframer, last, first, MOST_WAITING - 1);
        self.waiting = 0;
        self.deframer.push(false) == Event::Frame
    }

    /// Takes the next eight bits at once, if no frame can end with any of them, as is so of most. Otherwise it takes none of
    /// them. The last 64 bits are `before`.
    pub(crate) fn push_eight(&mut self, before: u64, octet: u8) -> bool
        ensures taken { (b : List Bool) → IsLast64 before b
            → StandsFor self.old.deframer (before / 2 ^ 56) self.old.waiting b → result ≡ true
            → (self.new.waiting ≡ 0) × DeframerStandsFor self.new.deframer (b ++ octet_bits octet) }
        ensures quiet { (b : List Bool) (k : ℕ) (octets : List ℕ) → IsLast64 before b
            → StandsFor self.old.deframer (before / 2 ^ 56) self.old.waiting b → result ≡ true → k < 8
            → ¬ EndsFrame (b ++ take (k + 1) (octet_bits octet)) octets }
        ensures left { (b : List Bool) → IsLast64 before b
            → StandsFor self.old.deframer (before / 2 ^ 56) self.old.waiting b → result ≡ false
            → StandsFor self.new.deframer (before / 2 ^ 56) self.new.waiting b }
    {
        self.settle((before >> 56) as u8);
        if self.deframer.push_octet(octet) {
            return true;
        }
        if may_end_frame_in(before, octet) {
            return false;
        }
        push_bits(&mut self.deframer, octet, 0, MOST_WAITING);
        true
    }

    /// Takes the bits that wait.
    fn settle(&mut self, last: u8)
        ensures stands_for { (b : List Bool) → StandsFor self.old.deframer last self.old.waiting b
            → StandsFor self.new.deframer last self.new.waiting b }
        ensures all { (b : List Bool) → StandsFor self.old.deframer last self.old.waiting b
            → DeframerStandsFor self.new.deframer b }
        ensures none { self.new.waiting ≡ 0 }
    {
        push_bits(
            &mut self.deframer,
            last,
            MOST_WAITING - self.waiting,
            MOST_WAITING,
        );
        self.waiting = 0;
    }

    /// The octets of the frame that the last bit ended.
    pub(crate) fn octets(&self) -> &[u8]
        requires { (octets : List ℕ) × IsFrame octets × HoldsFrame self.now.deframer octets }
        ensures { (octets : List ℕ) → IsFrame octets → HoldsFrame self.now.deframer octets
            → result.now ≡ octets }
    {
        self.deframer.octets()
    }
}
