//! A slow program that reads the definitions of events on whole lists of bits.
use super::line::{FLAG, stuffed};
use hdlc_framer::Event;
use std::alloc::{AllocError, Global};

/// What the last of the bits ends, by the definition.
pub(super) fn event_at_end(alloc: Global, bits: &[bool]) -> Result<Event, AllocError> {
    if bits.iter().rev().take_while(|bit| **bit).count() == 7 {
        return Ok(Event::Abort);
    }
    if !bits.ends_with(FLAG.as_slice()) {
        return Ok(Event::None);
    }
    for at in 0..bits.len() {
        let rest = &bits[at..];
        if rest.len() >= 16
            && rest.starts_with(FLAG.as_slice())
            && is_between_flags(alloc, &rest[8..rest.len() - 8])?
        {
            return Ok(Event::Frame);
        }
    }
    Ok(Event::Flag)
}

/// Are these the bits between the flags of a frame?
fn is_between_flags(alloc: Global, sent: &[bool]) -> Result<bool, AllocError> {
    let bits = unstuffed(alloc, sent)?;
    let again = stuffed(alloc, bits.as_slice())?;
    let count = bits.len();
    if again.as_slice() != sent || count % 8 != 0 || count < 8 * 17 || count > 8 * 1026 {
        return Ok(false);
    }
    let (data, check) = bits.as_slice().split_at(count - 16);
    Ok(check_bits(alloc, data)?.as_slice() == check)
}

/// The bits without the one after every five 1s in a row.
fn unstuffed(alloc: Global, sent: &[bool]) -> Result<Vec<bool>, AllocError> {
    let mut bits = Vec::new(alloc);
    let mut ones = 0;
    for bit in sent {
        if ones != 5 {
            bits.push(*bit)?;
        }
        ones = if *bit && ones < 5 { ones + 1 } else { 0 };
    }
    Ok(bits)
}

/// Makes a 1 of a 0 at this place, and a 0 of a 1.
pub(super) fn flip(bits: &mut Vec<bool>, at: usize) {
    if let Some(bit) = bits.get_mut(at) {
        *bit = !*bit;
    }
}

/// The sixteen bits of the check sequence of bits, by long division by x^16 + x^12 + x^5 + 1.
fn check_bits(alloc: Global, bits: &[bool]) -> Result<Vec<bool>, AllocError> {
    let mut coefficients = Vec::from_slice(alloc, bits)?;
    coefficients.extend_from_slice(&[false; 16])?;
    for at in 0..16 {
        flip(&mut coefficients, at);
    }
    for at in 0..bits.len() {
        if coefficients.get(at) == Some(&true) {
            for power in [0, 4, 11, 16] {
                flip(&mut coefficients, at + power);
            }
        }
    }
    let mut check = Vec::new(alloc);
    for coefficient in coefficients.iter().skip(bits.len()) {
        check.push(!*coefficient)?;
    }
    Ok(check)
}
