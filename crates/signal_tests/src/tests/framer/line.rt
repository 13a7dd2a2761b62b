//! Lines of bits: frames with their check sequences between flags.
use hdlc_framer::fcs;
use std::alloc::{AllocError, Global};

pub(super) const FLAG: [bool; 8] = [false, true, true, true, true, true, true, false];

/// The bits of octets, the least significant first.
fn bits_of(alloc: Global, octets: &[u8]) -> Result<Vec<bool>, AllocError> {
    let mut bits = Vec::new(alloc);
    for octet in octets {
        for place in [1, 2, 4, 8, 16, 32, 64, 128] {
            bits.push(*octet & place != 0)?;
        }
    }
    Ok(bits)
}

/// A 0 after every five 1s in a row.
pub(super) fn stuffed(alloc: Global, bits: &[bool]) -> Result<Vec<bool>, AllocError> {
    let mut sent = Vec::new(alloc);
    let mut ones = 0;
    for bit in bits {
        sent.push(*bit)?;
        ones = if *bit && ones < 5 { ones + 1 } else { 0 };
        if ones == 5 {
            sent.push(false)?;
            ones = 0;
        }
    }
    Ok(sent)
}

/// Flags, frames with their check sequences, and flags.
pub(super) fn sent(
    alloc: Global,
    frames: &[&[u8]],
    opening: u8,
    closing: u8,
) -> Result<Vec<bool>, AllocError> {
    let mut bits = Vec::new(alloc);
    for _ in 1..opening {
        bits.extend_from_slice(FLAG.as_slice())?;
    }
    for frame in frames {
        bits.extend_from_slice(FLAG.as_slice())?;
        let mut octets = Vec::from_slice(alloc, frame)?;
        octets.extend_from_slice(fcs(frame).to_le_bytes().as_slice())?;
        let data = bits_of(alloc, octets.as_slice())?;
        bits.extend_from_slice(stuffed(alloc, data.as_slice())?.as_slice())?;
    }
    for _ in 0..closing {
        bits.extend_from_slice(FLAG.as_slice())?;
    }
    Ok(bits)
}

/// The random word after another.
pub(super) fn next_word(word: u32) -> u32 {
    word.wrapping_mul(1_664_525).wrapping_add(1_013_904_223)
}

/// A frame of so many octets, with runs of 1s and of 0s.
pub(super) fn frame_of(alloc: Global, len: u16, seed: u32) -> Result<Vec<u8>, AllocError> {
    let mut octets = Vec::new(alloc);
    let mut word = seed;
    for _ in 0..len {
        word = next_word(word);
        let [highest, ..] = word.to_be_bytes();
        octets.push(if highest < 64 { 0xff } else { highest })?;
    }
    Ok(octets)
}
