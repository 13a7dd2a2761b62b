//! N7LEM>APRS:hello in a block of 16 check octets, as Dire Wolf's gen_packets sends it, from a sender whose clock is half a
//! percent fast, with and without damage. The eight lanes hear nothing of it.

use fx25_receiver::{Fx25Receiver, Heard};
use nrzi_bits::NrziOut;
use sensitive_blocks::SensitiveBlocksReceiver;
use std::alloc::Global;
use std::process::Abort;
use std::test::Fail;
use tnc_base::OutOfMemory;
use tone_table::{advance, sine, step};

const FRAME: [u8; 21] = [
    0x82, 0xA0, 0xA4, 0xA6, 0x40, 0x40, 0xE0, 0x9C, 0x6E, 0x98, 0x8A, 0x9A, 0x40, 0xE1, 0x03, 0xF0,
    0x68, 0x65, 0x6C, 0x6C, 0x6F,
];

/// Flags for a clock to come into step, the tag, the data and the check octets, and two flags.
const SENT: [u8; 72] = [
    0x7E, 0x7E, 0x7E, 0x7E, 0x7E, 0x7E, 0x7E, 0x7E, 0x7E, 0x7E, 0x7E, 0x7E, 0x7E, 0x7E, 0xEE, 0x60,
    0x96, 0x36, 0xB4, 0x6E, 0x05, 0x8F, 0x7E, 0x82, 0xA0, 0xA4, 0xA6, 0x40, 0x40, 0xE0, 0x9C, 0x6E,
    0x98, 0x8A, 0x9A, 0x40, 0xE1, 0x03, 0xE0, 0xD1, 0xCA, 0xD8, 0xD8, 0xDE, 0x30, 0x84, 0xFD, 0xFC,
    0xFC, 0xFC, 0xFC, 0xFC, 0xFC, 0xFC, 0x82, 0xEE, 0xC2, 0x13, 0xAF, 0x86, 0xA7, 0x6B, 0xD0, 0x10,
    0xBE, 0x2F, 0xD0, 0x1D, 0xCB, 0xB4, 0x7E, 0x7E,
];

/// How many of the data and check octets come wrong, and the tag with which the frame is heard.
const ROWS: [(usize, Option<u8>); 4] = [(0, Some(0)), (1, Some(4)), (8, Some(4)), (9, None)];

/// The samples of octets on a line that stands at mark, without each 200th.
fn fast_sound(rt: &impl Abort, alloc: Global, octets: &[u8]) -> Result<Vec<i16>, OutOfMemory> {
    let mut samples = Vec::new(alloc);
    let mut line = NrziOut::new();
    let mut phase = 0;
    let mut left = 200_u8;
    for octet in octets {
        for place in 0..8_u8 {
            let tone = line.step((*octet >> place) & 1 == 1);
            assert!(rt; phase < 48);
            for i in 0..8_u8 {
                left = left.saturating_sub(1);
                if left == 0 {
                    left = 200;
                } else {
                    samples.push(sine((phase + i * step(tone)) % 48))?;
                }
            }
            phase = advance(phase, tone);
        }
    }
    Ok(samples)
}

/// The sound of the block with the most octets wrong that can be repaired.
pub(super) fn fast_block(rt: &impl Abort, alloc: Global) -> Result<Vec<i16>, OutOfMemory> {
    let mut octets = SENT;
    for place in 0..8 {
        octets[23 + 5 * place] ^= 0x91;
    }
    fast_sound(rt, alloc, &octets)
}

/// What all lanes hear of samples that come in two blocks.
fn heard(rt: &impl Abort, alloc: Global, first: &[i16], second: &[i16]) -> Vec<Heard> {
    assert!(rt; first.len() < 10_000 && second.len() < 10_000);
    let mut receiver = SensitiveBlocksReceiver::new(alloc).expect(rt, "the lanes are small");
    let mut given = receiver.block(first).expect(rt, "little is heard");
    for item in receiver.block(second).expect(rt, "little is heard") {
        given.push(item).expect(rt, "the list is short");
    }
    for item in receiver.finish().expect(rt, "little is heard") {
        given.push(item).expect(rt, "the list is short");
    }
    given
}

#[test]
fn a_block_from_a_fast_clock_is_repaired(rt: HostRuntime) -> Result<(), Fail> {
    for &(wrong, tag) in &ROWS {
        assert!(rt; wrong <= 9);
        let mut octets = SENT;
        for place in 0..wrong {
            octets[23 + 5 * place] ^= 0x91;
        }
        let samples = fast_sound(&rt, rt.alloc(), &octets)?;
        assert!(rt; samples.len() < 10_000);
        let alone = Fx25Receiver::new(rt.alloc())?.block(&samples)?;
        assert!(rt; alone.is_empty());
        for &cut in &[0, 39, 3000] {
            assert!(rt; cut <= samples.len());
            let items = heard(&rt, rt.alloc(), &samples[..cut], &samples[cut..]);
            match tag {
                None => assert!(rt; items.is_empty()),
                Some(tag) => {
                    assert_eq!(rt; items.len(), 1);
                    assert_eq!(rt; items[0].octets.as_slice(), FRAME.as_slice());
                    assert_eq!(rt; items[0].tag, tag);
                }
            }
        }
    }
    Ok(())
}
