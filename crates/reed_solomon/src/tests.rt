//! Check octets and repairs from outside: blocks of FX.25 as Dire Wolf sends them, and words of an independent program.

use crate::{Code, NoCodeword, Zeros, check_octets, is_codeword, repair, repair_with_unknown};
use std::process::Abort;

// N7LEM>APRS:hello in a block of FX.25: a flag, the frame's bits and flags.
const DATA: [u8; 64] = [
    0x7e, 0x82, 0xa0, 0xa4, 0xa6, 0x40, 0x40, 0xe0, 0x9c, 0x6e, 0x98, 0x8a, 0x9a, 0x40, 0xe1, 0x03,
    0xe0, 0xd1, 0xca, 0xd8, 0xd8, 0xde, 0x30, 0x84, 0xfd, 0xfc, 0xfc, 0xfc, 0xfc, 0xfc, 0xfc, 0xfc,
    0xfc, 0xfc, 0xfc, 0xfc, 0xfc, 0xfc, 0xfc, 0xfc, 0xfc, 0xfc, 0xfc, 0xfc, 0xfc, 0xfc, 0xfc, 0xfc,
    0xfc, 0xfc, 0xfc, 0xfc, 0xfc, 0xfc, 0xfc, 0xfc, 0xfc, 0xfc, 0xfc, 0xfc, 0xfc, 0xfc, 0xfc, 0xfc,
];

// Check octets of its first 32 octets.
const CHECK_16: [u8; 16] = [
    0x82, 0xee, 0xc2, 0x13, 0xaf, 0x86, 0xa7, 0x6b, 0xd0, 0x10, 0xbe, 0x2f, 0xd0, 0x1d, 0xcb, 0xb4,
];

const CHECK_32: [u8; 32] = [
    0xa3, 0x27, 0x42, 0xba, 0x72, 0x13, 0x96, 0x0e, 0xc7, 0xb6, 0x79, 0x8d, 0xcf, 0xb6, 0xe5, 0x92,
    0x78, 0x24, 0xa7, 0x52, 0xb4, 0xbb, 0x6f, 0xae, 0x9c, 0x50, 0xf7, 0xb3, 0x08, 0x6b, 0x0c, 0xc0,
];

// Check octets of all 64.
const CHECK_64: [u8; 64] = [
    0x8b, 0x23, 0xce, 0x80, 0x47, 0xaf, 0x3b, 0x7e, 0xf8, 0x38, 0x86, 0x25, 0x3b, 0x9e, 0x2b, 0x23,
    0x6f, 0x53, 0x84, 0x59, 0xc7, 0xe0, 0x5b, 0xfc, 0x36, 0x57, 0x92, 0xc2, 0x25, 0x4b, 0xa6, 0x61,
    0xf4, 0xa2, 0xd2, 0xea, 0xd1, 0x39, 0x2d, 0xf9, 0x0e, 0xb0, 0x0a, 0x15, 0x7c, 0xfd, 0x52, 0x42,
    0x93, 0x5e, 0x8b, 0xb8, 0x99, 0x61, 0x6d, 0x6a, 0x11, 0x6d, 0x97, 0x56, 0x68, 0x27, 0xd6, 0x23,
];

// The octets 1 to 13 with four check octets, as IL2P has its code.
const HEADER: [u8; 17] = [
    1, 2, 3, 4, 5, 6, 7, 8, 9, 10, 11, 12, 13, 0x51, 0x1a, 0x60, 0x2a,
];

fn code(rt: &impl Abort, first_root: u8, check_count: usize, zeros: Zeros) -> Code {
    Code::new(first_root, check_count, zeros).expect(rt, "the numbers are those of a code")
}

fn expect_check_octets(rt: &impl Abort, code: &Code, octets: &[u8], check: &[u8]) {
    assert!(rt; octets.len() + code.check_count() <= 255);
    assert_eq!(rt; check_octets(code, octets).as_slice(), check);
}

#[test]
fn check_octets_are_those_of_fx25(rt: HostRuntime) {
    for (count, octets, check) in [
        (16, &DATA[..32], CHECK_16.as_slice()),
        (32, &DATA[..32], CHECK_32.as_slice()),
        (64, DATA.as_slice(), CHECK_64.as_slice()),
    ] {
        expect_check_octets(&rt, &code(&rt, 1, count, Zeros::Between), octets, check);
    }
}

#[test]
fn check_octets_are_those_of_il2p(rt: HostRuntime) {
    let code = code(&rt, 0, 4, Zeros::Leading);
    assert_eq!(rt; (code.first_root(), code.zeros()), (0, Zeros::Leading));
    assert_eq!(rt; code.check_count(), 4);
    expect_check_octets(&rt, &code, &HEADER[..13], &HEADER[13..]);
    assert!(rt; is_codeword(&code, &HEADER));
}

// A block of 48 octets in which every third octet is wrong, so many in all.
fn block(wrong: usize) -> [u8; 48] {
    let mut block = [0; 48];
    block[..32].copy_from_slice(&DATA[..32]);
    block[32..].copy_from_slice(&CHECK_16);
    for k in 0..wrong.min(16) {
        block[3 * k] ^= (37 * k % 256) as u8 ^ 1;
    }
    block
}

#[test]
fn blocks_are_repaired(rt: HostRuntime) {
    let code = code(&rt, 1, 16, Zeros::Between);
    assert_eq!(rt; code.check_count(), 16);
    for (wrong, expected) in [
        (0, Ok(0)),
        (1, Ok(1)),
        (2, Ok(2)),
        (8, Ok(8)),
        (9, Err(NoCodeword)),
    ] {
        let mut heard = block(wrong);
        let repaired = repair(&code, &mut heard);
        let kept = if repaired.is_ok() {
            block(0)
        } else {
            block(wrong)
        };
        assert_eq!(rt; repaired, expected);
        assert_eq!(rt; heard.as_slice(), kept.as_slice());
    }
}

// The wrong octets and the unknown ones of a block, each of them the first so many of every third octet.
const UNKNOWN: [(usize, usize, Result<usize, NoCodeword>); 6] = [
    (16, 16, Ok(16)),
    (12, 8, Ok(12)),
    (11, 7, Ok(11)),
    (2, 16, Ok(2)),
    (13, 8, Err(NoCodeword)),
    (12, 7, Err(NoCodeword)),
];

#[test]
fn blocks_with_unknown_octets_are_repaired(rt: HostRuntime) {
    let code = code(&rt, 1, 16, Zeros::Between);
    assert_eq!(rt; code.check_count(), 16);
    for (wrong, unknown, expected) in UNKNOWN {
        let mut heard = block(wrong);
        let mut flags = [false; 48];
        for k in 0..unknown.min(16) {
            flags[3 * k] = true;
        }
        let flags = flags.as_slice();
        assert_eq!(rt; flags.len(), 48);
        let repaired = repair_with_unknown(&code, &mut heard, flags);
        let kept = if repaired.is_ok() {
            block(0)
        } else {
            block(wrong)
        };
        assert_eq!(rt; repaired, expected);
        assert_eq!(rt; heard.as_slice(), kept.as_slice());
    }
}
