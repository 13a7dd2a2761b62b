//! N7LEM>APRS:hello in a block of 16 check octets, as Dire Wolf's gen_packets sends it, with and without damage.

use crate::{Fx25Receiver, Heard};
use nrzi_bits::NrziOut;
use std::alloc::Global;
use std::process::Abort;
use std::test::Fail;
use tone_table::{advance, sine, step};

const FRAME: [u8; 21] = [
    0x82, 0xA0, 0xA4, 0xA6, 0x40, 0x40, 0xE0, 0x9C, 0x6E, 0x98, 0x8A, 0x9A, 0x40, 0xE1, 0x03, 0xF0,
    0x68, 0x65, 0x6C, 0x6C, 0x6F,
];

// Two flags, the tag, the data and the check octets, and two flags.
const SENT: [u8; 60] = [
    0x7E, 0x7E, 0xEE, 0x60, 0x96, 0x36, 0xB4, 0x6E, 0x05, 0x8F, 0x7E, 0x82, 0xA0, 0xA4, 0xA6, 0x40,
    0x40, 0xE0, 0x9C, 0x6E, 0x98, 0x8A, 0x9A, 0x40, 0xE1, 0x03, 0xE0, 0xD1, 0xCA, 0xD8, 0xD8, 0xDE,
    0x30, 0x84, 0xFD, 0xFC, 0xFC, 0xFC, 0xFC, 0xFC, 0xFC, 0xFC, 0x82, 0xEE, 0xC2, 0x13, 0xAF, 0x86,
    0xA7, 0x6B, 0xD0, 0x10, 0xBE, 0x2F, 0xD0, 0x1D, 0xCB, 0xB4, 0x7E, 0x7E,
];

// The frame is over after two flags, the tag and 201 bits of the block, eight samples a bit.
const AT: u64 = 2248;

// The block is over after two flags, the tag and 384 bits.
const END: u64 = 3712;

// The samples of octets on a line that stands at mark.
fn sound(rt: &impl Abort, alloc: Global, octets: &[u8]) -> Vec<i16> {
    let mut samples = Vec::new(alloc);
    let mut line = NrziOut::new();
    let mut phase = 0;
    for octet in octets {
        for place in 0..8_u8 {
            let tone = line.step((*octet >> place) & 1 == 1);
            assert!(rt; phase < 48);
            for i in 0..8_u8 {
                samples
                    .push(sine((phase + i * step(tone)) % 48))
                    .expect(rt, "the list is short");
            }
            phase = advance(phase, tone);
        }
    }
    samples
}

// What is given of samples that come in two blocks.
fn given(rt: &impl Abort, alloc: Global, first: &[i16], second: &[i16]) -> Vec<Heard> {
    assert!(rt; first.len() < 10_000 && second.len() < 10_000);
    let mut receiver = Fx25Receiver::new(alloc).expect(rt, "eight lanes are small");
    let mut given = receiver.block(first).expect(rt, "little is heard");
    for item in receiver.block(second).expect(rt, "little is heard") {
        given.push(item).expect(rt, "the list is short");
    }
    given
}

#[test]
fn eight_wrong_octets_are_repaired_and_nine_are_not(rt: HostRuntime) -> Result<(), Fail> {
    // how many octets of the data and check octets come wrong, the tag with which the frame is heard, and its end
    for &(wrong, heard) in &[
        (0, Some((0, AT))),
        (1, Some((4, END))),
        (8, Some((4, END))),
        (9, None),
    ] {
        assert!(rt; wrong <= 9);
        let mut octets = SENT;
        for place in 0..wrong {
            octets[11 + 5 * place] ^= 0x91;
        }
        let samples = sound(&rt, rt.alloc(), &octets);
        for &cut in &[0, 1, 71, 2250, 3711] {
            assert!(rt; cut <= samples.len());
            let items = given(&rt, rt.alloc(), &samples[..cut], &samples[cut..]);
            match heard {
                None => assert!(rt; items.is_empty()),
                Some((tag, end)) => {
                    assert_eq!(rt; items.len(), 1);
                    let item = &items[0];
                    assert_eq!(rt; item.octets.as_slice(), FRAME.as_slice());
                    assert_eq!(rt; item.tag, tag);
                    assert!(rt; item.at.abs_diff(AT) <= 7 && item.end.abs_diff(end) <= 7);
                }
            }
        }
    }
    Ok(())
}

// The samples of what is sent, of which so many octets past the first twelve are silent.
fn silenced(rt: &impl Abort, alloc: Global, silent: usize) -> Vec<i16> {
    assert!(rt; silent <= 13);
    let mut samples = sound(rt, alloc, &SENT);
    for (place, sample) in samples.iter_mut().enumerate() {
        if place >= 768 && place < 768 + 64 * silent {
            *sample = 0;
        }
    }
    samples
}

#[test]
fn a_silence_of_ten_octets_is_repaired(rt: HostRuntime) -> Result<(), Fail> {
    // How many octets of the data are silent, where the samples are cut, and whether the frame is heard. Eight octets are
    // repaired as they came. Of ten the eight that are unknown cost half as much as the others: 8 + 2 * 3 are at most the
    // 16 check octets, if the octet after the silence is wrong too. Of thirteen they would be at least 8 + 2 * 5.
    for &(silent, cut, heard) in &[(7, 0, true), (10, 1000, true), (13, 3000, false)] {
        let samples = silenced(&rt, rt.alloc(), silent);
        assert!(rt; cut <= samples.len());
        let items = given(&rt, rt.alloc(), &samples[..cut], &samples[cut..]);
        if heard {
            assert_eq!(rt; items.len(), 1);
            assert_eq!(rt; items[0].octets.as_slice(), FRAME.as_slice());
            assert!(rt; items[0].tag == 4 && items[0].at.abs_diff(AT) <= 7);
        } else {
            assert!(rt; items.is_empty());
        }
    }
    Ok(())
}
