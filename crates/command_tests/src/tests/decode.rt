//! The shortest transmission as raw PCM, from sources that cut it in several ways and from a slow sender.

use crate::tests::assertions::assert_equal;
use std::alloc::{AllocError, Global};
use std::process::Abort;
use std::test::Fail;
use std::thread::Threads;
use tnc_base::{MemSink, MemSource};
use tnc_decode::decode;
use tnc_encode::encode;
use tnc_forms::{Fault, InputFault};
use tnc_words::{
    AudioForm, CheckOctets, DecodeWords, EncodeWords, FrameForm, Modem, Receiving, SampleRate,
};

/// The tones of a SABM from N7LEM to NJ7P between two flags and one, 162 bits in all, M for mark and S for space.
const TONES: &[u8; 162] =
    b"SSSSSSSMSSSSSSSMSMMMMSMMSMMSSMSSMMMMSSSMSMSMSSMMSMSMSMMSMSMSMSSMSMSMSSSSMSSSSMSSMMMMSSSMSMSSSMSSMMSSMSMMSSMMMSMMSMSMSMMSSMSMSSSMMMMMMSSMSMMMSSMSSSMSSSSSSMSSSSSSSM";

/// A cycle of a sine wave of amplitude 10000 in 48 steps.
const SINE: [i16; 48] = [
    0, 1305, 2588, 3827, 5000, 6088, 7071, 7934, 8660, 9239, 9659, 9914, 10000, 9914, 9659, 9239,
    8660, 7934, 7071, 6088, 5000, 3827, 2588, 1305, 0, -1305, -2588, -3827, -5000, -6088, -7071,
    -7934, -8660, -9239, -9659, -9914, -10000, -9914, -9659, -9239, -8660, -7934, -7071, -6088,
    -5000, -3827, -2588, -1305,
];

/// The line of its frame.
const LINE: &[u8] = b"9c946ea04040e09c6e988a9a40613f\n";

/// The same as a KISS frame on port 0.
const KISS_FRAME: &[u8] =
    b"\xc0\x00\x9c\x94\x6e\xa0\x40\x40\xe0\x9c\x6e\x98\x8a\x9a\x40\x61\x3f\xc0";

const WORDS: DecodeWords = DecodeWords {
    audio: AudioForm::Raw,
    frames: FrameForm::Hex,
    threads: false,
    receiving: Receiving::Standard {
        rate: SampleRate::Narrow,
    },
};

/// By all 26 lanes.
const SENSITIVE: DecodeWords = DecodeWords {
    receiving: Receiving::Sensitive {
        rate: SampleRate::Narrow,
    },
    ..WORDS
};

/// Also out of blocks.
const FX25: DecodeWords = DecodeWords {
    receiving: Receiving::Fx25,
    ..WORDS
};

/// The frame of `LINE` in a block.
const BLOCK: EncodeWords = EncodeWords {
    frames: FrameForm::Hex,
    audio: AudioForm::Raw,
    join: false,
    opening: 2,
    closing: 1,
    silence: 0,
    level: 10000,
    modem: Modem::Fx25(CheckOctets::Sixteen),
};

/// The head of a WAV file of 12,960 octets at 48,000 samples a second.
const WIDE_HEAD: &[u8] =
    b"RIFF\xc4\x32\0\0WAVEfmt \x10\0\0\0\x01\0\x01\0\x80\xbb\0\0\0\x77\x01\0\x02\0\x10\0data\xa0\x32\0\0";

/// The octets of the samples, eight samples a tone: mark is 6 steps a sample, space 11.
fn recording(alloc: Global) -> Result<Vec<u8>, AllocError> {
    let mut octets = Vec::new(alloc);
    record(&mut octets, 1)?;
    Ok(octets)
}

/// Appends the octets of the samples, each of them so many times.
fn record(octets: &mut Vec<u8>, times: usize) -> Result<(), AllocError> {
    let mut phase = 0usize;
    for tone in TONES {
        phase = record_tone(octets, phase, *tone, 8, times)?;
    }
    Ok(())
}

/// The octets of the samples of a sender whose clock is slow by one part in eighty: each tenth tone has nine samples.
/// Five bits of silence follow: an added lane decides a bit together with the two after it, and their mean takes two more.
fn slow_recording(alloc: Global) -> Result<Vec<u8>, AllocError> {
    let mut octets = Vec::new(alloc);
    let mut phase = 0usize;
    for (index, tone) in TONES.iter().enumerate() {
        let samples = if index % 10 == 9 { 9 } else { 8 };
        phase = record_tone(&mut octets, phase, *tone, samples, 1)?;
    }
    octets.extend_from_slice(&[0; 80])?;
    Ok(octets)
}

/// Appends so many samples of a tone from a phase on, each of them so many times, and gives the phase after them.
fn record_tone(
    octets: &mut Vec<u8>,
    start: usize,
    tone: u8,
    samples: usize,
    times: usize,
) -> Result<usize, AllocError> {
    let step = if tone == b'M' { 6 } else { 11 };
    let mut phase = start;
    for _ in 0..samples {
        for _ in 0..times {
            octets.extend_from_slice(&SINE[phase % 48].to_le_bytes())?;
        }
        phase = (phase % 48 + step) % 48;
    }
    Ok(phase)
}

/// What is written of an input that comes in pieces of so many octets, and how the command ends, if the source fails
/// the reads of these numbers.
fn decoded<R: Abort + Threads + Sync>(
    rt: &R,
    alloc: Global,
    words: DecodeWords,
    octets: Vec<u8>,
    piece: usize,
    reads: &[u64],
) -> Result<(Vec<u8>, Result<(), Fault>), Fail> {
    assert!(rt; piece > 0);
    let mut input = MemSource::new(octets, piece, reads.to_vec(alloc)?);
    let mut output = MemSink::new(alloc, 1000, Vec::new(alloc))?;
    let end = decode(rt, alloc, words, &mut input, &mut output);
    Ok((output.written().to_vec(alloc)?, end))
}

/// Asserts what is written of an input that comes in pieces of so many octets.
fn assert_cut<R: Abort + Threads + Sync>(
    rt: &R,
    alloc: Global,
    words: DecodeWords,
    octets: Vec<u8>,
    (piece, reads): (usize, &[u64]),
    want: (&[u8], Result<(), Fault>),
) -> Result<(), Fail> {
    let (written, end) = decoded(rt, alloc, words, octets, piece, reads)?;
    assert_equal(
        rt,
        &(words, piece, (written.as_slice(), end)),
        &(words, piece, want),
    );
    Ok(())
}

/// Asserts what is written of an input that comes in pieces of 4095 octets, to its end.
fn assert_writes<R: Abort + Threads + Sync>(
    rt: &R,
    alloc: Global,
    words: DecodeWords,
    octets: Vec<u8>,
    want: &[u8],
) -> Result<(), Fail> {
    assert_cut(rt, alloc, words, octets, (4095, &[]), (want, Ok(())))
}

/// Each row: how many octets come at once, and whether the lanes have threads.
const CUTS: &[(usize, bool)] = &[(1, false), (3, false), (4095, false), (4095, true)];

/// The octets of the samples, and one more.
fn odd_recording(alloc: Global) -> Result<Vec<u8>, AllocError> {
    let mut octets = recording(alloc)?;
    octets.push(0)?;
    Ok(octets)
}

#[test]
fn a_recording_gives_one_line_however_its_source_cuts_it(rt: HostRuntime) -> Result<(), Fail> {
    for (piece, threads) in CUTS {
        let words = DecodeWords {
            threads: *threads,
            ..WORDS
        };
        let octets = odd_recording(rt.alloc())?;
        assert_cut(
            &rt,
            rt.alloc(),
            words,
            octets,
            (*piece, &[]),
            (LINE, Ok(())),
        )?;
    }
    Ok(())
}

// The frame ends at sample 1294 of 1296.
#[test]
fn a_frame_is_written_before_the_input_fails(rt: HostRuntime) -> Result<(), Fail> {
    let octets = recording(rt.alloc())?;
    let want = (LINE, Err(Fault::Read));
    assert_cut(&rt, rt.alloc(), WORDS, octets, (4095, &[2]), want)
}

const WIDE: DecodeWords = DecodeWords {
    receiving: Receiving::Standard {
        rate: SampleRate::Wide,
    },
    ..WORDS
};

const WIDE_SENSITIVE: DecodeWords = DecodeWords {
    receiving: Receiving::Sensitive {
        rate: SampleRate::Wide,
    },
    ..WORDS
};

/// Each row: the words, and what stands before samples at 48,000 a second.
const AT_48000: &[(DecodeWords, &[u8])] = &[
    (WIDE, b""),
    (
        DecodeWords {
            threads: true,
            ..WIDE
        },
        b"\0\0\0\0\0\0",
    ),
    (
        DecodeWords {
            audio: AudioForm::Wav,
            ..WORDS
        },
        WIDE_HEAD,
    ),
    (WIDE_SENSITIVE, b""),
    (
        DecodeWords {
            threads: true,
            ..WIDE_SENSITIVE
        },
        b"\0\0\0\0\0\0",
    ),
    (
        DecodeWords {
            audio: AudioForm::Wav,
            ..SENSITIVE
        },
        WIDE_HEAD,
    ),
];

/// The octets of the samples at 48,000 a second, after others.
fn wide_recording(alloc: Global, front: &[u8]) -> Result<Vec<u8>, AllocError> {
    let mut octets = front.to_vec(alloc)?;
    record(&mut octets, 5)?;
    Ok(octets)
}

// By eight lanes and by all.
#[test]
fn samples_at_48000_a_second_give_the_same_line(rt: HostRuntime) -> Result<(), Fail> {
    for (words, front) in AT_48000 {
        let octets = wide_recording(rt.alloc(), front)?;
        assert_writes(&rt, rt.alloc(), *words, octets, LINE)?;
    }
    Ok(())
}

/// Each row: whether the sender is slow, the words, and what is written.
const SENDERS: &[(bool, DecodeWords, &[u8])] = &[
    (false, SENSITIVE, LINE),
    (true, SENSITIVE, LINE),
    (
        true,
        DecodeWords {
            threads: true,
            ..SENSITIVE
        },
        LINE,
    ),
    (true, WORDS, b""),
];

#[test]
fn all_lanes_hear_a_slow_sender_too(rt: HostRuntime) -> Result<(), Fail> {
    for (is_slow, words, want) in SENDERS {
        let octets = if *is_slow {
            slow_recording(rt.alloc())?
        } else {
            recording(rt.alloc())?
        };
        assert_writes(&rt, rt.alloc(), *words, octets, want)?;
    }
    Ok(())
}

// The rate ends at the 28th octet of a WAV file.
#[test]
fn short_wave_takes_no_file_of_48000_a_second(rt: HostRuntime) -> Result<(), Fail> {
    let words = DecodeWords {
        audio: AudioForm::Wav,
        receiving: Receiving::ShortWave,
        ..WORDS
    };
    let octets = WIDE_HEAD.to_vec(rt.alloc())?;
    let (_, end) = decoded(&rt, rt.alloc(), words, octets, 4095, &[])?;
    assert!(rt; matches!(end, Err(Fault::Input(InputFault::Wav(_)))));
    Ok(())
}

/// The samples of a block.
fn block(alloc: Global) -> Result<Vec<u8>, Fail> {
    let mut source = MemSource::new(LINE.to_vec(alloc)?, 31, Vec::new(alloc));
    let mut sink = MemSink::new(alloc, 8000, Vec::new(alloc))?;
    encode(alloc, BLOCK, &mut source, &mut sink)?;
    Ok(sink.written().to_vec(alloc)?)
}

/// The samples of a block, of which so many are silent from sample 700 on. The data and check octets are the samples
/// from 640 to 3712.
fn damaged(rt: &impl Abort, alloc: Global, count: usize) -> Result<Vec<u8>, Fail> {
    let mut octets = block(alloc)?;
    assert!(rt; count <= 2000 && octets.len() == 7552);
    octets[1400..1400 + 2 * count].fill(0);
    Ok(octets)
}

/// Each row: how many samples are silent, the words, and what is written. With 16 check octets any stretch of 441 samples
/// may be wrong.
const DAMAGED: &[(usize, DecodeWords, &[u8])] = &[
    (0, WORDS, LINE),
    (0, FX25, LINE),
    (441, WORDS, b""),
    (441, FX25, LINE),
    (
        441,
        DecodeWords {
            frames: FrameForm::Kiss,
            ..FX25
        },
        KISS_FRAME,
    ),
    (1000, FX25, b""),
];

#[test]
fn a_block_is_heard_beside_what_comes_plainly(rt: HostRuntime) -> Result<(), Fail> {
    for (count, words, want) in DAMAGED {
        let octets = damaged(&rt, rt.alloc(), *count)?;
        assert_writes(&rt, rt.alloc(), *words, octets, want)?;
    }
    assert_writes(&rt, rt.alloc(), FX25, recording(rt.alloc())?, LINE)
}

#[test]
fn a_block_is_heard_however_its_source_cuts_it(rt: HostRuntime) -> Result<(), Fail> {
    for piece in [1, 3, 1000] {
        let octets = damaged(&rt, rt.alloc(), 441)?;
        assert_cut(&rt, rt.alloc(), FX25, octets, (piece, &[]), (LINE, Ok(())))?;
    }
    Ok(())
}
