//! Files and heads from outside.
use crate::tests::assertions::assert_equal;
use std::alloc::{AllocError, Global};
use std::process::Abort;
use std::test::Fail;
use wav_file::{TooLong, WavFault, WavIn, wav_head};

// What Python's module `wave` and sox write for one channel, two octets a sample, 9600 samples a second and the samples
// below.
const WRITTEN: [u8; 58] =
    *b"RIFF\x32\0\0\0WAVEfmt \x10\0\0\0\x01\0\x01\0\x80\x25\0\0\0\x4b\0\0\x02\0\x10\0data\x0e\0\0\0\0\0\xba\x26\x1c\x0a\xe9\xdb\0\x80\xff\x7f\xff\xff";

const SAMPLES: [i16; 7] = [0, 9914, 2588, -9239, -32768, 32767, -1];

// The head of 1296 samples.
const HEAD: [u8; 44] =
    *b"RIFF\x44\x0a\0\0WAVEfmt \x10\0\0\0\x01\0\x01\0\x80\x25\0\0\0\x4b\0\0\x02\0\x10\0data\x20\x0a\0\0";

// RIFF, a size and WAVE.
const FRONT: &[u8] = b"RIFF\xff\xff\xff\xffWAVE";

// A format that is read.
const FORMAT: &[u8] = b"fmt \x10\0\0\0\x01\0\x01\0\x80\x25\0\0\0\0\0\0\x02\0\x10\0";

// What a reader made of octets: the samples, the first fault with the place of the octet that brought it, how many
// octets were answered by that fault, and what it thinks of a file that ends there.
#[derive(Drop)]
struct Read {
    samples: Vec<i16>,
    shown: Option<(usize, WavFault)>,
    faults: usize,
    end: Result<(), WavFault>,
}

fn read_all(alloc: Global, octets: &[u8]) -> Result<Read, AllocError> {
    let mut reader = WavIn::new();
    let mut samples = Vec::new(alloc);
    let mut shown = None;
    let mut faults: usize = 0;
    for (place, octet) in octets.iter().enumerate() {
        match reader.push(*octet) {
            Ok(Some(sample)) => samples.push(sample)?,
            Ok(None) => {}
            Err(fault) => {
                let (first, shows) = shown.unwrap_or((place, fault));
                shown = Some((first, shows));
                faults = faults.saturating_add(usize::from(fault == shows));
            }
        }
    }
    Ok(Read {
        samples,
        shown,
        faults,
        end: reader.finish(),
    })
}

fn joined(alloc: Global, parts: &[&[u8]]) -> Result<Vec<u8>, AllocError> {
    let mut octets = Vec::new(alloc);
    for part in parts {
        octets.extend_from_slice(part)?;
    }
    Ok(octets)
}

#[test]
fn a_head_counts_its_samples(rt: HostRuntime) {
    assert_equal(&rt, &wav_head(1296), &Ok(HEAD));
    let most = wav_head(2_147_483_629)
        .ok()
        .map(|head| (head[4], head[7], head[40], head[43]));
    assert_equal(&rt, &most, &Some((0xfe, 0xff, 0xda, 0xff)));
    for count in [2_147_483_630, u64::MAX] {
        assert_equal(&rt, &wav_head(count), &Err(TooLong { count }));
    }
}

// Into a pipe sox writes sizes that stand for no end.
const PIPED: [u8; 58] =
    *b"RIFF\x24\xf0\xff\x7fWAVEfmt \x10\0\0\0\x01\0\x01\0\x80\x25\0\0\0\x4b\0\0\x02\0\x10\0data\0\xf0\xff\x7f\0\0\xba\x26\x1c\x0a\xe9\xdb\0\x80\xff\x7f\xff\xff";

/// Asserts that a file is read whole, without a fault.
fn assert_whole<R: Abort>(rt: &R, alloc: Global, octets: &[u8; 58]) -> Result<(), Fail> {
    let found = read_all(alloc, octets)?;
    assert_equal(
        rt,
        &(found.samples.as_slice(), found.shown, found.end),
        &(SAMPLES.as_slice(), None, Ok(())),
    );
    Ok(())
}

#[test]
fn a_file_of_another_program_is_read(rt: HostRuntime) -> Result<(), Fail> {
    assert_whole(&rt, rt.alloc(), &WRITTEN)?;
    assert_whole(&rt, rt.alloc(), &PIPED)
}

#[test]
fn a_file_cut_anywhere_is_truncated_there(rt: HostRuntime) -> Result<(), Fail> {
    for length in 0..WRITTEN.len() {
        let found = read_all(rt.alloc(), &WRITTEN[..length])?;
        let at = length as u64;
        let samples = length.saturating_sub(44) / 2;
        assert_equal(
            &rt,
            &(length, found.shown, found.samples.len(), found.end),
            &(length, None, samples, Err(WavFault::Truncated { at })),
        );
    }
    Ok(())
}

// The place of an octet, what stands there in place of the right one, and the fault.
const WRONG: &[(usize, u8, Option<WavFault>)] = &[
    (3, 0x58, Some(WavFault::NotRiff { at: 3 })),
    (0, 0x72, Some(WavFault::NotRiff { at: 0 })),
    (6, 0x58, None),
    (11, 0x58, Some(WavFault::NotWave { at: 11 })),
    (8, 0x77, Some(WavFault::NotWave { at: 8 })),
    (16, 0x0e, Some(WavFault::NoFormat { at: 19 })),
    (
        20,
        0x03,
        Some(WavFault::BadFormat {
            at: 21,
            field: 1,
            value: 3,
        }),
    ),
    (
        21,
        0x01,
        Some(WavFault::BadFormat {
            at: 21,
            field: 1,
            value: 257,
        }),
    ),
    (
        22,
        0x02,
        Some(WavFault::BadFormat {
            at: 23,
            field: 2,
            value: 2,
        }),
    ),
    (
        24,
        0x81,
        Some(WavFault::BadFormat {
            at: 27,
            field: 3,
            value: 9601,
        }),
    ),
    (
        27,
        0x01,
        Some(WavFault::BadFormat {
            at: 27,
            field: 3,
            value: 0x0100_2580,
        }),
    ),
    (28, 0x01, None),
    (31, 0x01, None),
    (
        32,
        0x04,
        Some(WavFault::BadFormat {
            at: 33,
            field: 5,
            value: 4,
        }),
    ),
    (
        34,
        0x18,
        Some(WavFault::BadFormat {
            at: 35,
            field: 6,
            value: 24,
        }),
    ),
    (
        35,
        0x01,
        Some(WavFault::BadFormat {
            at: 35,
            field: 6,
            value: 272,
        }),
    ),
];

/// Asserts what a reader makes of the file with another octet at a place.
fn assert_faulty<R: Abort>(
    rt: &R,
    alloc: Global,
    (place, octet): (usize, u8),
    want: Option<WavFault>,
) -> Result<(), Fail> {
    let mut file = WRITTEN;
    assert!(*rt; place < file.len());
    file[place] = octet;
    let found = read_all(alloc, &file)?;
    let got = (found.shown, found.faults, found.end);
    assert_equal(rt, &(place, got), &(place, faulty(want, file.len())));
    Ok(())
}

#[test]
fn a_fault_comes_at_the_octet_that_shows_it(rt: HostRuntime) -> Result<(), Fail> {
    for (place, octet, want) in WRONG {
        assert_faulty(&rt, rt.alloc(), (*place, *octet), *want)?;
    }
    Ok(())
}

// What a reader answers to a file of so many octets that shows this fault: the fault with its place, how many octets it
// answers, which are all from there on, and the end.
type Refused = (Option<(usize, WavFault)>, usize, Result<(), WavFault>);

fn faulty(fault: Option<WavFault>, length: usize) -> Refused {
    match fault {
        Some(fault) => {
            let at = place_of(fault) as usize;
            (Some((at, fault)), length.saturating_sub(at), Err(fault))
        }
        None => (None, 0, Ok(())),
    }
}

fn place_of(fault: WavFault) -> u64 {
    match fault {
        WavFault::NotRiff { at } => at,
        WavFault::NotWave { at } => at,
        WavFault::NoFormat { at } => at,
        WavFault::BadFormat { at, .. } => at,
        WavFault::Truncated { at } => at,
    }
}

#[test]
fn a_rate_of_44100_is_named(rt: HostRuntime) {
    let mut file = HEAD;
    file[24] = 0x44;
    file[25] = 0xac;
    let mut reader = WavIn::new();
    let fault = WavFault::BadFormat {
        at: 27,
        field: 3,
        value: 44100,
    };
    for (place, octet) in file.iter().enumerate() {
        let want = if place < 27 { Ok(None) } else { Err(fault) };
        assert_equal(&rt, &(place, reader.push(*octet)), &(place, want));
    }
    assert_equal(&rt, &reader.finish(), &Err(fault));
}

/// Asserts what is read of a file of these parts, the row of this number.
fn assert_read<R: Abort>(
    rt: &R,
    alloc: Global,
    number: usize,
    parts: &[&[u8]],
    samples: &[i16],
    fault: Option<WavFault>,
) -> Result<(), Fail> {
    let found = read_parts(alloc, parts)?;
    assert_equal(
        rt,
        &(number, found.samples.as_slice(), found.end.err()),
        &(number, samples, fault),
    );
    Ok(())
}

fn read_parts(alloc: Global, parts: &[&[u8]]) -> Result<Read, AllocError> {
    let octets = joined(alloc, parts)?;
    read_all(alloc, &octets)
}

const WIDE_FORMAT: &[u8] = b"fmt \x12\0\0\0\x01\0\x01\0\x80\x25\0\0\0\0\0\0\x02\0\x10\0\x07\x07";

const OTHER_FORMAT: &[u8] = b"fmt \x10\0\0\0\x03\0\x02\0\x44\xac\0\0\0\0\0\0\x08\0\x20\0";

const LIST: &[u8] = b"LIST\x03\0\0\0abc\0";

const DATA: &[u8] = b"data\x05\0\0\0\x01\0\x02\0\x03\0";

const ENDLESS: &[u8] = b"data\0\xf0\xff\x7f\x01\0\x02\0\x03";

const NO_DATA: &[u8] = b"data\0\0\0\0";

const TWO: &[i16] = &[1, 2];

// Each row: the parts of a file, its samples, and the fault at its end.
const CHUNKS: &[(&[&[u8]], &[i16], Option<WavFault>)] = &[
    (&[FRONT, FORMAT, DATA], TWO, None),
    (&[FRONT, LIST, FORMAT, LIST, DATA, LIST, DATA], TWO, None),
    (&[FRONT, WIDE_FORMAT, DATA], TWO, None),
    (&[FRONT, FORMAT, OTHER_FORMAT, DATA, b"x"], TWO, None),
    (&[FRONT, FORMAT, ENDLESS], TWO, None),
    (
        &[FRONT, FORMAT, ENDLESS, b"\0data"],
        &[1, 2, 3, 24932, 24948],
        None,
    ),
    (&[FRONT, FORMAT, NO_DATA], &[], None),
    (&[FRONT, FORMAT, NO_DATA, DATA], &[], None),
    (
        &[FRONT, FORMAT, LIST],
        &[],
        Some(WavFault::Truncated { at: 48 }),
    ),
    (
        &[FRONT, b"data\x08\0\0\0", FORMAT, DATA],
        &[],
        Some(WavFault::NoFormat { at: 19 }),
    ),
    (
        &[FRONT, FORMAT, b"data\x06\0\0\0\x01\0\x02\0\x03"],
        TWO,
        Some(WavFault::Truncated { at: 49 }),
    ),
];

#[test]
fn chunks_in_any_order_are_read(rt: HostRuntime) -> Result<(), Fail> {
    for (number, (parts, samples, fault)) in CHUNKS.iter().enumerate() {
        assert_read(&rt, rt.alloc(), number, parts, samples, *fault)?;
    }
    Ok(())
}

// The place of the first octet before which the rate is not told as it is to be, or that is a fault.
fn wrong_rate(octets: &[u8; 58], rate: u32) -> Option<usize> {
    let mut reader = WavIn::any_rate();
    for (place, octet) in octets.iter().enumerate() {
        let want = if place < 36 { None } else { Some(rate) };
        if reader.rate() != want || reader.push(*octet).is_err() {
            return Some(place);
        }
    }
    if reader.finish().is_err() {
        return Some(octets.len());
    }
    None
}

#[test]
fn the_rate_is_told_once_the_format_was_read(rt: HostRuntime) {
    assert_equal(&rt, &wrong_rate(&WRITTEN, 9600), &None);
    let mut wide = WRITTEN;
    wide[24..28].copy_from_slice(b"\x80\xbb\0\0");
    assert_equal(&rt, &wrong_rate(&wide, 48_000), &None);
}

// The answers of a reader to all octets, then to the head one by one, and to pieces of the samples.
fn taken() -> [usize; 7] {
    let mut reader = WavIn::new();
    let before = reader.take_pairs(&WRITTEN);
    let mut faults: usize = 0;
    for octet in &WRITTEN[..44] {
        faults = faults.saturating_add(usize::from(reader.push(*octet).is_err()));
    }
    let first = reader.take_pairs(&WRITTEN[44..47]);
    let half = reader.push(WRITTEN[46]) == Ok(None);
    let in_the_middle = reader.take_pairs(&WRITTEN[47..]);
    let whole = reader.push(WRITTEN[47]) == Ok(Some(SAMPLES[1]));
    let rest = reader.take_pairs(&WRITTEN);
    let ends = reader.finish() == Ok(());
    let right = usize::from(half && whole && ends);
    let after = reader.take_pairs(&WRITTEN);
    [before, faults, first, in_the_middle, rest, right, after]
}

// None before the data; in it, whole samples up to its end, but none in the middle of a sample.
#[test]
fn whole_samples_are_taken_at_once(rt: HostRuntime) {
    assert_equal(&rt, &taken(), &[0, 0, 2, 0, 10, 1, 0]);
}
