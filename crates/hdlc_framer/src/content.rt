//! The bits since a flag without inserted zeros, packed into octets as they come.

ghost use Rattle.std.specs.Prelude.{◌≡◌, ℕ, ◌+◌, ◌^◌, ◌<◌, ◌≤◌, ◌↔◌, List, [], ◌∷◌, ◌++◌, length, nat_lt, true, IsTrue};
ghost use Rattle.std.specs.Prelude.{◌*◌};
ghost use Rattle.hdlc_framer.specs.BitOrder.{sent_bits, low_bits, octet_bits};
ghost use Rattle.hdlc_framer.specs.Frames.{IsFrame, with_fcs};
ghost use Rattle.hdlc_framer.specs.Held.{flag_start};

use crate::check_sequence::fcs;
use arrayvec::ArrayVec;
use std::marker::Model;

// The most octets of a frame with its check sequence.
const MOST_OCTETS: usize = 1026;

// The least octets of a frame with its check sequence.
const LEAST_OCTETS: usize = 17;

// The first six bits of a flag, 011111, as a part of an octet.
const FLAG_START: u8 = 0b11_1110;

// How many bits that are.
const FLAG_START_BITS: u8 = 6;

#[derive(Drop)]
pub struct Content {
    octets: ArrayVec<u8, MOST_OCTETS>,
    part: u8,
    filled: u8,
}

impl Model for Content {
    ghost use Rattle.std.specs.Prelude.{◌++◌, List, Bool};
    ghost use Rattle.hdlc_framer.specs.BitOrder.{sent_bits, low_bits};
    ghost use Rattle.hdlc_framer.specs.Packed.{IsPacked};

    ghost Value = { List Bool };

    ghost view = { λ c. sent_bits c.octets.items ++ low_bits c.filled c.part };

    ghost invariant = { λ c. IsPacked c.octets.items c.filled c.part };
}

impl Content {
    pub fn new() -> Self
        ensures { result ≡ [] }
    {
        Content {
            octets: ArrayVec::new(),
            part: 0,
            filled: 0,
        }
    }

    pub fn clear(&mut self)
        ensures { self.new ≡ [] }
    {
        self.octets.clear();
        self.part = 0;
        self.filled = 0;
    }

    // Is there room for one more bit?
    pub fn has_room(&self) -> bool
        ensures { result ≡ nat_lt (length self.now) 8215 }
    {
        self.filled < 7 || !self.octets.is_full()
    }

    pub fn push(&mut self, bit: bool)
        requires { length self.old < 8215 }
        ensures { self.new ≡ self.old ++ bit ∷ [] }
    {
        let part = with_bit(self.part, self.filled, bit);
        if self.filled < 7 {
            self.part = part;
            self.filled += 1;
        } else {
            self.octets.push(part);
            self.part = 0;
            self.filled = 0;
        }
    }

    // Is there room for eight more bits?
    pub fn has_room_for_octet(&self) -> bool
        ensures { result ≡ true → length self.now + 8 ≤ 8215 }
    {
        !self.octets.is_full()
    }

    // Keeps eight bits more, the lowest of an octet first.
    pub fn push_octet(&mut self, octet: u8)
        requires { length self.old + 8 ≤ 8215 }
        ensures { self.new ≡ self.old ++ octet_bits octet }
    {
        let bits = joined(self.part, self.filled, octet);
        self.octets.push((bits % 256) as u8);
        self.part = (bits / 256) as u8;
    }

    // Are these the bits of a frame with its check sequence, and the first six of a flag?
    pub fn is_frame(&self) -> bool
        ensures { IsTrue result ↔ ((octets : List ℕ)
            × (self.now ≡ sent_bits (with_fcs octets) ++ flag_start) × IsFrame octets) }
    {
        if self.filled != FLAG_START_BITS || self.part != FLAG_START {
            return false;
        }
        ends_with_fcs(self.octets.as_slice())
    }

    // The octets of that frame, without its check sequence.
    pub fn frame(&self) -> &[u8]
        requires { (octets : List ℕ) × (self.now ≡ sent_bits (with_fcs octets) ++ flag_start) × IsFrame octets }
        ensures { (octets : List ℕ) → IsFrame octets
            → self.now ≡ sent_bits (with_fcs octets) ++ flag_start → result.now ≡ octets }
    {
        let octets = self.octets.as_slice();
        &octets[..octets.len() - 2]
    }
}

// A part of an octet with one bit more.
fn with_bit(part: u8, filled: u8, bit: bool) -> u8
    requires room { filled < 8 }
    requires part { part < 2 ^ filled }
    ensures bits { low_bits (filled + 1) result ≡ low_bits filled part ++ bit ∷ [] }
    ensures below { result < 2 ^ (filled + 1) }
{
    if bit { part | (1 << filled) } else { part }
}

// A part of an octet with an octet above it.
fn joined(part: u8, filled: u8, octet: u8) -> u16
    requires room { filled < 8 }
    requires part { part < 2 ^ filled }
    ensures bits { result ≡ part + 2 ^ filled * octet }
    ensures below { result < 256 * 2 ^ filled }
{
    u16::from(part) + (u16::from(octet) << filled)
}

// Are these the octets of a frame and its check sequence?
fn ends_with_fcs(octets: &[u8]) -> bool
    requires { length octets.now ≤ 1026 }
    ensures { IsTrue result ↔ ((frame : List ℕ) × (octets.now ≡ with_fcs frame) × IsFrame frame) }
{
    if octets.len() < LEAST_OCTETS {
        return false;
    }
    let (frame, sent) = octets.split_at(octets.len() - 2);
    u16::from_le_bytes([sent[0], sent[1]]) == fcs(frame)
}
