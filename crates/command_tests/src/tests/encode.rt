//! Frames in several forms and the samples that come of them. Counts of octets and hashes were computed apart from the
//! program.

use crate::tests::assertions::assert_equal;
use std::alloc::Global;
use std::process::Abort;
use std::test::Fail;
use tnc_base::{MemSink, MemSource, fnv};
use tnc_encode::encode;
use tnc_forms::{Fault, InputFault, LineFault, LineFlaw};
use tnc_words::{AudioForm, CheckOctets, EncodeWords, FrameForm, Modem};

/// A SABM from N7LEM to NJ7P.
const LINE: &[u8] = b"9c946ea04040e09c6e988a9a40613f\n";

/// The same as a KISS frame on port 0.
const KISS: &[u8] = b"\xc0\x00\x9c\x94\x6e\xa0\x40\x40\xe0\x9c\x6e\x98\x8a\x9a\x40\x61\x3f\xc0";

/// The SABM, an empty line, and a UA between the same stations.
const TWO: &[u8] = b"9c946ea04040e09c6e988a9a40613f\n\n9c946ea04040e09c6e988a9a406163\n";

/// `hello` from N7LEM to APRS.
const HELLO: &[u8] = b"82a0a4a64040e09c6e988a9a40e103f068656c6c6f\n";

/// The same twice.
const HELLO_TWICE: &[u8] =
    b"82a0a4a64040e09c6e988a9a40e103f068656c6c6f\n82a0a4a64040e09c6e988a9a40e103f068656c6c6f\n";

const WORDS: EncodeWords = EncodeWords {
    frames: FrameForm::Hex,
    audio: AudioForm::Raw,
    join: false,
    opening: 2,
    closing: 1,
    silence: 0,
    level: 10000,
    modem: Modem::Bell202,
};

/// What is written of an input that comes in pieces of 31 octets, and how the command ends, if the source fails the
/// reads and the sink the writes of these numbers.
fn encoded(
    rt: &impl Abort,
    alloc: Global,
    words: EncodeWords,
    input: &[u8],
    reads: &[u64],
    writes: &[u64],
) -> Result<(Vec<u8>, Result<(), Fault>), Fail> {
    assert!(rt; words.opening >= 2 && words.closing >= 1);
    assert!(rt; words.level >= 10 && words.level <= 32767);
    let mut source = MemSource::new(input.to_vec(alloc)?, 31, reads.to_vec(alloc)?);
    let mut sink = MemSink::new(alloc, 40_000, writes.to_vec(alloc)?)?;
    let end = encode(alloc, words, &mut source, &mut sink);
    Ok((sink.written().to_vec(alloc)?, end))
}

/// How many octets are written of a whole input, their hash, and how the command ends.
fn hashed(
    rt: &impl Abort,
    alloc: Global,
    words: EncodeWords,
    input: &[u8],
) -> Result<(usize, u64, Result<(), Fault>), Fail> {
    let (written, end) = encoded(rt, alloc, words, input, &[], &[])?;
    Ok((written.len(), fnv(&written), end))
}

/// Each row: the words, the input, and how many octets come and their hash.
type Row = (EncodeWords, &'static [u8], usize, u64);

fn assert_rows<R: Abort>(rt: &R, alloc: Global, rows: &[Row]) -> Result<(), Fail> {
    for (words, input, count, hash) in rows {
        let got = hashed(rt, alloc, *words, input)?;
        assert_equal(rt, &(*words, got), &(*words, (*count, *hash, Ok(()))));
    }
    Ok(())
}

const SAMPLES: &[Row] = &[
    (WORDS, LINE, 2592, 0xaa5a_7dd0_ab09_8f3d),
    (
        EncodeWords {
            frames: FrameForm::Kiss,
            ..WORDS
        },
        KISS,
        2592,
        0xaa5a_7dd0_ab09_8f3d,
    ),
    (
        EncodeWords {
            audio: AudioForm::Wav,
            ..WORDS
        },
        LINE,
        2636,
        0xcce1_aaf6_e749_73bc,
    ),
    (WORDS, TWO, 5168, 0x29fd_d972_36a4_4ab0),
    (
        EncodeWords {
            join: true,
            ..WORDS
        },
        TWO,
        4912,
        0x6262_5458_9968_6b6e,
    ),
    (
        EncodeWords {
            opening: 3,
            closing: 2,
            silence: 7,
            level: 1000,
            ..WORDS
        },
        LINE,
        2862,
        0x1b64_0697_088c_f578,
    ),
    (WORDS, b"", 0, 0xcbf2_9ce4_8422_2325),
];

#[test]
fn frames_and_their_samples(rt: HostRuntime) -> Result<(), Fail> {
    assert_rows(&rt, rt.alloc(), SAMPLES)
}

const WITH_16: EncodeWords = EncodeWords {
    modem: Modem::Fx25(CheckOctets::Sixteen),
    ..WORDS
};

const WITH_32: EncodeWords = EncodeWords {
    modem: Modem::Fx25(CheckOctets::ThirtyTwo),
    ..WORDS
};

const WITH_64: EncodeWords = EncodeWords {
    modem: Modem::Fx25(CheckOctets::SixtyFour),
    ..WORDS
};

/// One frame, and two in one transmission: the tag and the block of `hello` as Dire Wolf's gen_packets makes them, between
/// flags on one line.
const BLOCKS: &[Row] = &[
    (WITH_16, HELLO, 7552, 0xd616_ba2a_b954_1d6d),
    (
        EncodeWords {
            join: true,
            ..WITH_16
        },
        HELLO_TWICE,
        14720,
        0x0106_9044_9ecc_14e5,
    ),
    (WITH_32, HELLO, 9600, 0xfcb4_cb09_dbef_39e3),
    (
        EncodeWords {
            join: true,
            ..WITH_32
        },
        HELLO_TWICE,
        18816,
        0xf023_4b62_7567_e7cc,
    ),
    (WITH_64, HELLO, 17792, 0x0560_b9ff_af07_03b8),
    (
        EncodeWords {
            join: true,
            ..WITH_64
        },
        HELLO_TWICE,
        35200,
        0xefe0_29a2_a805_3353,
    ),
];

#[test]
fn frames_with_check_octets(rt: HostRuntime) -> Result<(), Fail> {
    assert_rows(&rt, rt.alloc(), BLOCKS)
}

const ODD: Fault = Fault::Input(InputFault::Line(LineFault {
    flaw: LineFlaw::OddLine,
    place: 31,
}));

/// Each row: the input, the reads and writes that fail, the fault, and how many octets are written.
const CUT: &[(&[u8], &[u64], &[u64], Fault, usize)] = &[
    (TWO, &[1], &[], Fault::Read, 2592),
    (TWO, &[0], &[], Fault::Read, 0),
    (TWO, &[], &[0], Fault::Write, 0),
    (
        b"9c946ea04040e09c6e988a9a40613f\n9c9\n",
        &[],
        &[],
        ODD,
        2592,
    ),
];

#[test]
fn what_had_ended_stands_written(rt: HostRuntime) -> Result<(), Fail> {
    for (input, reads, writes, fault, count) in CUT {
        let (written, end) = encoded(&rt, rt.alloc(), WORDS, input, reads, writes)?;
        assert_equal(&rt, &(written.len(), end), &(*count, Err(*fault)));
    }
    Ok(())
}
