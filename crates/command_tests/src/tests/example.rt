//! An example to read first: `encode` makes sound of a line of hexadecimal digits, and `decode` prints the line again.

use crate::tests::assertions::assert_equal;
use std::test::Fail;
use tnc_base::{MemSink, MemSource};
use tnc_decode::decode;
use tnc_encode::encode;
use tnc_words::{AudioForm, DecodeWords, EncodeWords, FrameForm, Modem, Receiving, SampleRate};

/// A SABM from N7LEM to NJ7P.
const LINE: &[u8] = b"9c946ea04040e09c6e988a9a40613f\n";

/// Sound as samples of 16 bits, with two flags before a frame and one after it.
const SENDING: EncodeWords = EncodeWords {
    frames: FrameForm::Hex,
    audio: AudioForm::Raw,
    join: false,
    opening: 2,
    closing: 1,
    silence: 0,
    level: 10000,
    modem: Modem::Bell202,
};

/// The same sound by eight lanes.
const HEARING: DecodeWords = DecodeWords {
    audio: AudioForm::Raw,
    frames: FrameForm::Hex,
    threads: false,
    receiving: Receiving::Standard {
        rate: SampleRate::Narrow,
    },
};

#[test]
fn a_line_is_sent_and_heard(rt: HostRuntime) -> Result<(), Fail> {
    let alloc = rt.alloc();
    let mut lines = MemSource::new(LINE.to_vec(alloc)?, 31, Vec::new(alloc));
    let mut sound = MemSink::new(alloc, 40_000, Vec::new(alloc))?;
    let end = encode(alloc, SENDING, &mut lines, &mut sound);
    assert_equal(&rt, &end, &Ok(()));

    let mut sound = MemSource::new(sound.written().to_vec(alloc)?, 4095, Vec::new(alloc));
    let mut heard = MemSink::new(alloc, 1000, Vec::new(alloc))?;
    let end = decode(&rt, alloc, HEARING, &mut sound, &mut heard);
    assert_equal(&rt, &end, &Ok(()));
    assert_equal(&rt, &heard.written(), &LINE);
    Ok(())
}
