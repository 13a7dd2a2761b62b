//! A deframer that puts bits off.
//!
//! A frame ends only with a flag, and the last eight bits tell one. So bits wait until there are eight, of which nearly
//! all can be taken at once, or until a flag comes.
ghost use Rattle.std.specs.Prelude.{◌≡◌, ◌+◌, ◌<◌, ◌≤◌, ℕ, Bool, List, [], ◌∷◌, ◌++◌, drop, true};
ghost use Rattle.hdlc_framer.specs.BitOrder.{low_bits, octet_bits};
ghost use Rattle.hdlc_framer.specs.Frames.{IsFrame, EndsFrame};
ghost use Rattle.hdlc_framer.specs.Held.{HoldsFrame, StandsFor as DeframerStandsFor};

use crate::deframer::Deframer;
use crate::event::Event;
use std::marker::Model;

/// The flag as an octet.
const FLAG: u8 = 0x7E;

/// The place of the last bit that came.
const LAST_BIT: u8 = 0x80;

/// So many bits wait at most.
const MOST_WAITING: u8 = 8;

/// Finds the frames in a line of bits, as a [`Deframer`] does, where bits come one by one. It keeps the deframer, the last eight
/// bits, the first of them in the lowest place, and how many of them the deframer has not taken.
#[derive(Drop)]
pub struct LateDeframer {
    deframer: Deframer,
    last: u8,
    waiting: u8,
}

impl Model for LateDeframer {
    ghost use Rattle.std.specs.Prelude.{◌≤◌};
    ghost use Rattle.hdlc_framer.specs.Late.{HeldLate};

    ghost Value = { HeldLate };

    ghost view = { λ s. record { deframer = s.deframer; last = s.last; waiting = s.waiting } };

    ghost invariant = { λ s. s.waiting ≤ 8 };
}

impl LateDeframer {
    ghost use Rattle.hdlc_framer.specs.Late.{StandsFor};

    /// A deframer that has taken no bit.
    pub fn new() -> LateDeframer
        ensures { StandsFor result.deframer result.last result.waiting [] }
    {
        LateDeframer {
            deframer: Deframer::new(),
            last: 0,
            waiting: 0,
        }
    }

    /// Takes the next bit, and says whether a frame ends with it. Most bits only wait, so a lane does this much itself.
    #[inline(always)]
    pub fn push(&mut self, bit: bool) -> bool
        ensures stands_for { (b : List Bool) → StandsFor self.old.deframer self.old.last self.old.waiting b
            → StandsFor self.new.deframer self.new.last self.new.waiting (b ++ bit ∷ []) }
        ensures holds { result ≡ true
            → (octets : List ℕ) × IsFrame octets × HoldsFrame self.new.deframer octets }
        ensures heard { (b : List Bool) → StandsFor self.old.deframer self.old.last self.old.waiting b
            → result ≡ true → (octets : List ℕ) × EndsFrame (b ++ bit ∷ []) octets }
        ensures frame { (b : List Bool) (octets : List ℕ)
            → StandsFor self.old.deframer self.old.last self.old.waiting b
            → EndsFrame (b ++ bit ∷ []) octets
            → (result ≡ true) × HoldsFrame self.new.deframer octets }
    {
        self.make_room();
        self.put_off(bit);
        if self.last != FLAG {
            return false;
        }
        self.catch_up()
    }

    /// Takes the bits that wait, if they are eight.
    fn make_room(&mut self)
        ensures stands_for { (b : List Bool) → StandsFor self.old.deframer self.old.last self.old.waiting b
            → StandsFor self.new.deframer self.new.last self.new.waiting b }
        ensures room { self.new.waiting < 8 }
    {
        if self.waiting == MOST_WAITING {
            push_whole_octet(&mut self.deframer, self.last);
            self.waiting = 0;
        }
    }

    /// One bit more waits.
    fn put_off(&mut self, bit: bool)
        requires { self.old.waiting < 8 }
        ensures stands_for { (b : List Bool) → StandsFor self.old.deframer self.old.last self.old.waiting b
            → StandsFor self.new.deframer self.new.last self.new.waiting (b ++ bit ∷ []) }
        ensures some { self.new.waiting ≡ self.old.waiting + 1 }
    {
        self.last = later(self.last, bit);
        self.waiting += 1;
    }

    /// Takes the bits that wait, of which the last ends a flag, and says whether a frame ends with it.
    fn catch_up(&mut self) -> bool
        requires some { 1 ≤ self.old.waiting }
        requires flag { self.old.last ≡ 126 }
        ensures stands_for { (b : List Bool) → StandsFor self.old.deframer self.old.last self.old.waiting b
            → StandsFor self.new.deframer self.new.last self.new.waiting b }
        ensures holds { result ≡ true
            → (octets : List ℕ) × IsFrame octets × HoldsFrame self.new.deframer octets }
        ensures heard { (b : List Bool) → StandsFor self.old.deframer self.old.last self.old.waiting b
            → result ≡ true → (octets : List ℕ) × EndsFrame b octets }
        ensures frame { (b : List Bool) (octets : List ℕ)
            → StandsFor self.old.deframer self.old.last self.old.waiting b → EndsFrame b octets
            → (result ≡ true) × HoldsFrame self.new.deframer octets }
    {
        let first = MOST_WAITING - self.waiting;
        push_bits(&mut self.deframer, self.last, first, MOST_WAITING - 1);
        self.waiting = 0;
        self.deframer.push(false) == Event::Frame
    }

    /// The octets of the frame that the last bit ended.
    pub fn octets(&self) -> &[u8]
        requires { (octets : List ℕ) × IsFrame octets × HoldsFrame self.now.deframer octets }
        ensures { (octets : List ℕ) → IsFrame octets → HoldsFrame self.now.deframer octets
            → result.now ≡ octets }
    {
        self.deframer.octets()
    }
}

/// Gives a deframer the bits of an octet, the lowest first: at once, if nothing ends with any of them and none is an
/// inserted 0. It tells no event.
pub fn push_whole_octet(deframer: &mut Deframer, octet: u8)
    ensures { (b : List Bool) → DeframerStandsFor deframer.old b → DeframerStandsFor deframer.new (b ++ octet_bits octet) }
{
    if !deframer.push_octet(octet) {
        push_bits(deframer, octet, 0, MOST_WAITING);
    }
}

/// Gives a deframer the bits of an octet from a place to before another, of which the lowest is 0. It tells no event.
pub fn push_bits(deframer: &mut Deframer, octet: u8, first: u8, end: u8)
    requires { (first ≤ end) × (end ≤ 8) }
    ensures { (b : List Bool) → DeframerStandsFor deframer.old b
        → DeframerStandsFor deframer.new (b ++ drop first (low_bits end octet)) }
{
    for place in first..end {
        deframer.push((octet >> place) & 1 == 1);
    }
}

/// The last eight bits after one bit more.
fn later(last: u8, bit: bool) -> u8
    ensures { octet_bits result ≡ drop 1 (octet_bits last) ++ bit ∷ [] }
{
    let rest = last >> 1;
    if bit { rest + LAST_BIT } else { rest }
}
