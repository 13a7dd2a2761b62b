//! The worked example of FX.25 from outside: N7LEM>APRS:hello as Dire Wolf's gen_packets sends it with 16, 32 and 64
//! check octets.

use crate::{BlockReader, Certainties, block_length, block_with_unknown, write_block, write_unit};
use std::alloc::Global;
use std::process::Abort;
use tnc_base::Octets;

const FRAME: [u8; 21] = [
    0x82, 0xA0, 0xA4, 0xA6, 0x40, 0x40, 0xE0, 0x9C, 0x6E, 0x98, 0x8A, 0x9A, 0x40, 0xE1, 0x03, 0xF0,
    0x68, 0x65, 0x6C, 0x6C, 0x6F,
];

// The tag, the data and the check octets.
const UNIT_16: [u8; 56] = [
    0xEE, 0x60, 0x96, 0x36, 0xB4, 0x6E, 0x05, 0x8F, 0x7E, 0x82, 0xA0, 0xA4, 0xA6, 0x40, 0x40, 0xE0,
    0x9C, 0x6E, 0x98, 0x8A, 0x9A, 0x40, 0xE1, 0x03, 0xE0, 0xD1, 0xCA, 0xD8, 0xD8, 0xDE, 0x30, 0x84,
    0xFD, 0xFC, 0xFC, 0xFC, 0xFC, 0xFC, 0xFC, 0xFC, 0x82, 0xEE, 0xC2, 0x13, 0xAF, 0x86, 0xA7, 0x6B,
    0xD0, 0x10, 0xBE, 0x2F, 0xD0, 0x1D, 0xCB, 0xB4,
];

const UNIT_32: [u8; 72] = [
    0x76, 0x17, 0xBB, 0x2D, 0xBD, 0x69, 0xF8, 0xDB, 0x7E, 0x82, 0xA0, 0xA4, 0xA6, 0x40, 0x40, 0xE0,
    0x9C, 0x6E, 0x98, 0x8A, 0x9A, 0x40, 0xE1, 0x03, 0xE0, 0xD1, 0xCA, 0xD8, 0xD8, 0xDE, 0x30, 0x84,
    0xFD, 0xFC, 0xFC, 0xFC, 0xFC, 0xFC, 0xFC, 0xFC, 0xA3, 0x27, 0x42, 0xBA, 0x72, 0x13, 0x96, 0x0E,
    0xC7, 0xB6, 0x79, 0x8D, 0xCF, 0xB6, 0xE5, 0x92, 0x78, 0x24, 0xA7, 0x52, 0xB4, 0xBB, 0x6F, 0xAE,
    0x9C, 0x50, 0xF7, 0xB3, 0x08, 0x6B, 0x0C, 0xC0,
];

const UNIT_64: [u8; 136] = [
    0x96, 0xB7, 0x24, 0xA7, 0xC4, 0xBE, 0x4A, 0x4A, 0x7E, 0x82, 0xA0, 0xA4, 0xA6, 0x40, 0x40, 0xE0,
    0x9C, 0x6E, 0x98, 0x8A, 0x9A, 0x40, 0xE1, 0x03, 0xE0, 0xD1, 0xCA, 0xD8, 0xD8, 0xDE, 0x30, 0x84,
    0xFD, 0xFC, 0xFC, 0xFC, 0xFC, 0xFC, 0xFC, 0xFC, 0xFC, 0xFC, 0xFC, 0xFC, 0xFC, 0xFC, 0xFC, 0xFC,
    0xFC, 0xFC, 0xFC, 0xFC, 0xFC, 0xFC, 0xFC, 0xFC, 0xFC, 0xFC, 0xFC, 0xFC, 0xFC, 0xFC, 0xFC, 0xFC,
    0xFC, 0xFC, 0xFC, 0xFC, 0xFC, 0xFC, 0xFC, 0xFC, 0x8B, 0x23, 0xCE, 0x80, 0x47, 0xAF, 0x3B, 0x7E,
    0xF8, 0x38, 0x86, 0x25, 0x3B, 0x9E, 0x2B, 0x23, 0x6F, 0x53, 0x84, 0x59, 0xC7, 0xE0, 0x5B, 0xFC,
    0x36, 0x57, 0x92, 0xC2, 0x25, 0x4B, 0xA6, 0x61, 0xF4, 0xA2, 0xD2, 0xEA, 0xD1, 0x39, 0x2D, 0xF9,
    0x0E, 0xB0, 0x0A, 0x15, 0x7C, 0xFD, 0x52, 0x42, 0x93, 0x5E, 0x8B, 0xB8, 0x99, 0x61, 0x6D, 0x6A,
    0x11, 0x6D, 0x97, 0x56, 0x68, 0x27, 0xD6, 0x23,
];

fn frame(rt: &impl Abort, alloc: Global) -> Octets {
    Octets::from_slice(alloc, &FRAME).expect(rt, "the frame is small")
}

// The octets whose bits these are.
fn octets(rt: &impl Abort, alloc: Global, bits: &[bool]) -> Vec<u8> {
    let mut octets = Vec::new(alloc);
    for part in bits.chunks(8) {
        let mut octet = 0_u8;
        for (place, bit) in part.iter().enumerate() {
            if *bit && place < 8 {
                octet |= 1 << place;
            }
        }
        octets.push(octet).expect(rt, "the list is short");
    }
    octets
}

#[test]
fn units_are_those_of_gen_packets(rt: HostRuntime) {
    for (checks, unit) in [
        (16, UNIT_16.as_slice()),
        (32, UNIT_32.as_slice()),
        (64, UNIT_64.as_slice()),
    ] {
        let alloc = rt.alloc();
        let bits = write_unit(alloc, checks, &frame(&rt, alloc)).expect(&rt, "a unit is short");
        assert_eq!(rt; octets(&rt, alloc, &bits).as_slice(), unit);
    }
}

#[test]
fn no_tag_has_other_counts(rt: HostRuntime) {
    let alloc = rt.alloc();
    let block = write_block(alloc, 8, &frame(&rt, alloc)).expect(&rt, "a line is short");
    assert!(rt; block.is_none());
}

// After how many bits of its block the frame is over that a reader hears, or 0 if it hears none. Each third octet of
// the block is sent wrong, so many in all, and so many bits of the tag are.
fn heard(rt: &impl Abort, wrong: usize, wrong_tag_bits: usize) -> usize {
    let mut reader = BlockReader::new();
    for (place, octet) in UNIT_16.iter().enumerate() {
        for bit in 0..8_u8 {
            let sent = (*octet >> bit) & 1 == 1;
            reader.push(sent != is_wrong(place, bit, wrong, wrong_tag_bits));
        }
    }
    match reader.frame(4) {
        None => 0,
        Some(found) => {
            assert_eq!(*rt; found.octets.as_slice(), FRAME.as_slice());
            found.over
        }
    }
}

// Is this bit of an octet sent wrong?
fn is_wrong(place: usize, bit: u8, wrong: usize, wrong_tag_bits: usize) -> bool {
    if place < 8 {
        return place % 2 == 0 && bit < 4 && place * 2 + (bit as usize) < wrong_tag_bits;
    }
    place % 3 == 0 && place / 3 < wrong.saturating_add(3)
}

#[test]
fn damaged_units_are_heard(rt: HostRuntime) {
    for (wrong, wrong_tag_bits, over) in [
        (0, 0, 201),
        (8, 0, 201),
        (9, 0, 0),
        (8, 12, 201),
        (0, 13, 0),
    ] {
        assert_eq!(rt; heard(&rt, wrong, wrong_tag_bits), over);
    }
}

// Is the frame of the block read with each third octet sent wrong, so many in all, of which so many are told to be less
// sure than all other octets?
fn is_read(rt: &impl Abort, wrong: usize, unsure: usize) -> bool {
    let mut octets = [0; 48];
    let mut certainty = [5; 48];
    octets.copy_from_slice(&UNIT_16[8..]);
    for k in 0..16 {
        if k < wrong {
            octets[3 * k] ^= 0xFF;
        }
        if k < unsure {
            certainty[3 * k] = 1;
        }
    }
    let (octets, certainty) = (octets.as_slice(), certainty.as_slice());
    assert!(*rt; octets.len() == block_length(4) && certainty.len() == block_length(4));
    match block_with_unknown(4, octets, certainty) {
        None => false,
        Some(found) => {
            assert_eq!(*rt; found.octets.as_slice(), FRAME.as_slice());
            true
        }
    }
}

#[test]
fn unsure_octets_are_taken_as_unknown(rt: HostRuntime) {
    for (wrong, unsure, read) in [
        (8, 0, true),
        (9, 2, true),
        (12, 12, true),
        (13, 13, false),
        (12, 0, false),
    ] {
        assert_eq!(rt; is_read(&rt, wrong, unsure), read);
    }
}

// After how many bits of its block the frame is over that a reader hears which is told that the bits of each third octet
// of the block, of which so many are sent wrong, are less sure than the others.
fn heard_unsure(rt: &impl Abort, wrong: usize) -> usize {
    let mut reader = BlockReader::new();
    let mut certainties = Certainties::new();
    for (place, octet) in UNIT_16.iter().enumerate() {
        for bit in 0..8_u8 {
            let sent = (*octet >> bit) & 1 == 1;
            let is_wrong = is_wrong(place, bit, wrong, 0);
            reader.push(sent != is_wrong);
            certainties.push(if is_wrong { 1 } else { 5 });
        }
    }
    match reader.unsure_frame(4, &certainties) {
        None => 0,
        Some(found) => {
            assert_eq!(*rt; found.octets.as_slice(), FRAME.as_slice());
            found.over
        }
    }
}

#[test]
fn unsure_units_are_heard(rt: HostRuntime) {
    for (wrong, over) in [(8, 201), (12, 201), (13, 0)] {
        assert_eq!(rt; heard_unsure(&rt, wrong), over);
    }
}

// Whether a block is coming in after so many bits past its tag, of which so many are sent wrong.
fn is_coming(wrong_tag_bits: usize, past: usize) -> bool {
    let mut reader = BlockReader::new();
    for (place, octet) in UNIT_16[..8].iter().enumerate() {
        for bit in 0..8_u8 {
            let sent = (*octet >> bit) & 1 == 1;
            reader.push(sent != is_wrong(place, bit, 0, wrong_tag_bits));
        }
    }
    for _ in 0..past {
        reader.push(false);
    }
    reader.is_block_coming()
}

// The block has 384 bits, and counts up to 64 past its end.
#[test]
fn a_block_comes_in_from_its_tag_on(rt: HostRuntime) {
    for (wrong_tag_bits, past, coming) in [
        (0, 0, true),
        (8, 0, true),
        (9, 0, false),
        (8, 384, true),
        (8, 448, true),
        (8, 449, false),
    ] {
        assert_eq!(rt; is_coming(wrong_tag_bits, past), coming);
    }
}
