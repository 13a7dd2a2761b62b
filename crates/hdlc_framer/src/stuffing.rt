//! Frames as bits: with their check sequence, with inserted zeros, between flags.

ghost use Rattle.std.specs.Prelude.{◌≡◌, ◌≤◌, [], ◌∷◌, ◌++◌, if◌then◌else◌, OnOk, IfOk};
ghost use Rattle.hdlc_framer.specs.BitOrder.{octet_bits, sent_bits};
ghost use Rattle.hdlc_framer.specs.Body.{flags, body};
ghost use Rattle.hdlc_framer.specs.Counted.{stuffed_from, left_after};
ghost use Rattle.hdlc_framer.specs.Frames.{frame_bits};
ghost use Rattle.hdlc_framer.specs.Stuffing.{flag};

use crate::check_sequence::fcs;
use std::alloc::Global;
use tnc_base::{Octets, OutOfMemory};

// The flag, 01111110.
const FLAG: [bool; 8] = [false, true, true, true, true, true, true, false];

// How many 1s may come before the fifth of a run.
const FREE_ONES: u8 = 4;

/// The bits of a transmission: `opening` flags, each frame with its check sequence and its inserted zeros, exactly one
/// flag between neighbours, and `closing` flags (AX.25 2.2 sections 3.1, 3.6 and 3.7). Fails only for want of memory.
pub fn stuff(
    alloc: Global,
    frames: &[Octets],
    opening: u16,
    closing: u16,
) -> Result<Vec<bool>, OutOfMemory>
    ensures { IfOk result (λ bits. bits.items ≡ body frames.now opening closing) }
{
    let mut bits = Vec::new(alloc);
    push_flags(&mut bits, opening)?;
    for (place, frame) in frames.iter().enumerate() {
        push_next(&mut bits, place == 0, frame)?;
    }
    push_flags(&mut bits, closing)?;
    Ok(bits)
}

fn push_flags(bits: &mut Vec<bool>, count: u16) -> Result<(), OutOfMemory>
    ensures { OnOk result (bits.new.items ≡ bits.old.items ++ flags count) }
{
    for _ in 0..count {
        bits.extend_from_slice(FLAG.as_slice())?;
    }
    Ok(())
}

// A frame, after a flag if it is not the first.
fn push_next(bits: &mut Vec<bool>, first: bool, frame: &Octets) -> Result<(), OutOfMemory>
    ensures { OnOk result (bits.new.items
        ≡ bits.old.items ++ (if first then frame_bits frame.now else flag ++ frame_bits frame.now)) }
{
    if !first {
        bits.extend_from_slice(FLAG.as_slice())?;
    }
    push_frame(bits, frame.as_slice())
}

fn push_frame(bits: &mut Vec<bool>, octets: &[u8]) -> Result<(), OutOfMemory>
    ensures { OnOk result (bits.new.items ≡ bits.old.items ++ frame_bits octets.now) }
{
    let left = push_octets(bits, octets, FREE_ONES)?;
    push_octets(bits, fcs(octets).to_le_bytes().as_slice(), left)?;
    Ok(())
}

// The octets with inserted zeros, if `left` more 1s may come before the fifth of a run; gives how many may come then.
fn push_octets(bits: &mut Vec<bool>, octets: &[u8], mut left: u8) -> Result<u8, OutOfMemory>
    requires { left ≤ 4 }
    ensures bits { OnOk result (bits.new.items ≡ bits.old.items ++ stuffed_from (sent_bits octets.now) left) }
    ensures left { IfOk result (λ after. after ≡ left_after (sent_bits octets.now) left) }
{
    for octet in octets {
        left = push_octet(bits, *octet, left)?;
    }
    Ok(left)
}

fn push_octet(bits: &mut Vec<bool>, octet: u8, mut left: u8) -> Result<u8, OutOfMemory>
    requires { left ≤ 4 }
    ensures bits { OnOk result (bits.new.items ≡ bits.old.items ++ stuffed_from (octet_bits octet) left) }
    ensures left { IfOk result (λ after. after ≡ left_after (octet_bits octet) left) }
{
    for place in 0..8_u8 {
        left = push_bit(bits, (octet >> place) & 1 == 1, left)?;
    }
    Ok(left)
}

fn push_bit(bits: &mut Vec<bool>, bit: bool, left: u8) -> Result<u8, OutOfMemory>
    requires { left ≤ 4 }
    ensures bits { OnOk result (bits.new.items ≡ bits.old.items ++ stuffed_from (bit ∷ []) left) }
    ensures left { IfOk result (λ after. after ≡ left_after (bit ∷ []) left) }
{
    bits.push(bit)?;
    if !bit {
        return Ok(FREE_ONES);
    }
    if left > 0 {
        return Ok(left - 1);
    }
    bits.push(false)?;
    Ok(FREE_ONES)
}
