//! What `encode` sends and `decode` hears.
use super::{NEVER, SHORTEST, assert_ended, run_failing, run_over};
use crate::assertions::assert_equal;
use std::alloc::Global;
use std::net::Net;
use std::process::Abort;
use std::sync::Wait;
use std::test::Fail;
use std::thread::Threads;

/// The line of the shortest frame.
const ONCE: &str = "9c946ea04040e09c6e988a9a40613f\n";

/// The shortest frame in two lines.
const TWICE: &str = "9c946ea04040e09c6e988a9a40613f\n9c946ea04040e09c6e988a9a40613f\n";

/// A frame with many ones in a row.
const ONES: &str = "9c946ea04040e09c6e988a9a406103f0ffff00ffffff7e7e\n";

/// The shortest transmission of all frames.
const JOINED: &str = "encode --join --opening=2 --closing=1";

/// The shortest transmission, with two flags before a frame and one after it.
const SHORT_FLAGS: &str = "encode --opening 2 --closing=1";

#[test]
fn the_shortest_frame_is_the_known_wave(rt: HostRuntime) -> Result<(), Fail> {
    let begins = b"\x00\x00\xba\x26\x1c\x0a\xe9\xdb\x78\xec\xfe\x1e\x9f\x1b\x38\xe8";
    let got = run_over(&rt, rt.alloc(), SHORT_FLAGS, SHORTEST.as_bytes())?;
    assert_ended(&rt, SHORT_FLAGS, &got, (0, 2592, ""));
    assert!(rt; got.output.starts_with(begins));
    let words = "encode --silence=5 --opening 2 --closing=1";
    let later = run_over(&rt, rt.alloc(), words, SHORTEST.as_bytes())?;
    assert_ended(&rt, words, &later, (0, 2602, ""));
    assert!(rt; later.output.starts_with(&[0; 10]) && later.output.ends_with(&got.output));
    Ok(())
}

/// The words that send, the words that hear, the lines, and how many octets are written.
static SOUNDS: [(&str, &str, &str, usize); 9] = [
    (SHORT_FLAGS, "decode", TWICE, 5184),
    (JOINED, "decode", TWICE, 4928),
    ("encode --join --silence=3", "decode", TWICE, 14_406),
    ("encode", "decode", TWICE, 24_128),
    ("encode", "decode", ONES, 13_344),
    ("encode", "decode --sensitive", TWICE, 24_128),
    ("encode", "decode", "", 0),
    ("encode --wav", "decode --wav", TWICE, 24_172),
    ("encode --wav", "decode --wav", "", 44),
];

#[test]
fn what_is_sent_is_heard(rt: HostRuntime) -> Result<(), Fail> {
    for (words, back, lines, octets) in &SOUNDS {
        hears_what_it_sends(&rt, rt.alloc(), words, back, lines, *octets)?;
    }
    Ok(())
}

/// Sends lines, hears them, and ends the test unless so many octets were written and the lines come back.
fn hears_what_it_sends<R: Threads + Wait + Net + Sync + Abort>(
    rt: &R,
    alloc: Global,
    words: &str,
    back: &str,
    lines: &str,
    octets: usize,
) -> Result<(), Fail> {
    let sent = run_over(rt, alloc, words, lines.as_bytes())?;
    assert_ended(rt, words, &sent, (0, octets, ""));
    let heard = run_over(rt, alloc, back, &sent.output)?;
    assert_equal(
        rt,
        &(words, heard.output.as_slice()),
        &(words, lines.as_bytes()),
    );
    Ok(())
}

// Each row: the read that fails, and the frames that had ended before it. The first ends within 1296 samples.
#[test]
fn a_failed_read_keeps_the_frames_before_it(rt: HostRuntime) -> Result<(), Fail> {
    let sent = run_over(&rt, rt.alloc(), SHORT_FLAGS, TWICE.as_bytes())?.output;
    for (read, lines) in [(0, ""), (300, ""), (500, ONCE)] {
        let got = run_failing(&rt, rt.alloc(), "decode", &sent, [read, NEVER, NEVER])?;
        assert_equal(
            &rt,
            &(read, got.status, got.output.as_slice()),
            &(read, 4, lines.as_bytes()),
        );
    }
    Ok(())
}

#[test]
fn kiss_frames_come_and_go(rt: HostRuntime) -> Result<(), Fail> {
    let lines = b"9c946ea04040e09c6e988a9a40613f\n9c946ea04040e09c6e988a9a40613fc0db\n";
    let sent = run_over(&rt, rt.alloc(), "encode", lines)?.output;
    let kiss = run_over(&rt, rt.alloc(), "decode --kiss", &sent)?.output;
    assert!(rt;
        kiss.starts_with(b"\xc0\x00\x9c\x94") && kiss.ends_with(b"\x3f\xdb\xdc\xdb\xdd\xc0")
    );
    // Frames of other ports, and what is no frame, are not sent.
    let mut stream = kiss;
    stream.extend_from_slice(b"\x10\xc0\x00\x41\xc0\x01\x32\xc0")?;
    let again = run_over(&rt, rt.alloc(), "encode --kiss", &stream)?;
    assert_equal(&rt, &again.output.as_slice(), &sent.as_slice());
    let nothing = run_over(&rt, rt.alloc(), "encode --kiss", b"\xc0\x00\x41")?;
    assert_ended(&rt, "encode --kiss", &nothing, (0, 0, ""));
    Ok(())
}

/// The length of a WAV file of the shortest frame, the octets that are changed from a place on, what is heard, the
/// status, and the report.
type Cut = (usize, usize, &'static [u8], &'static str, u8, &'static str);

/// WAV files that are cut or changed.
static CUTS: [Cut; 10] = [
    (2636, 0, b"", ONCE, 0, ""),
    (2635, 0, b"", ONCE, 2, "tnc: bad input: truncated at 2635\n"),
    // A size as a writer into a pipe leaves it.
    (2636, 41, b"\xf0\xff\x7f", ONCE, 0, ""),
    (
        2636,
        24,
        b"\x44\xac",
        "",
        2,
        "tnc: bad input: bad format 3 value 44100 at 27\n",
    ),
    (
        2636,
        22,
        b"\x02",
        "",
        2,
        "tnc: bad input: bad format 2 value 2 at 23\n",
    ),
    (0, 0, b"", "", 2, "tnc: bad input: truncated at 0\n"),
    (3, 0, b"", "", 2, "tnc: bad input: truncated at 3\n"),
    (12, 0, b"", "", 2, "tnc: bad input: truncated at 12\n"),
    (35, 0, b"", "", 2, "tnc: bad input: truncated at 35\n"),
    (43, 0, b"", "", 2, "tnc: bad input: truncated at 43\n"),
];

#[test]
fn a_wav_file_is_heard_up_to_its_fault(rt: HostRuntime) -> Result<(), Fail> {
    let encode = "encode --wav --opening 2 --closing=1";
    let whole = run_over(&rt, rt.alloc(), encode, SHORTEST.as_bytes())?.output;
    for cut in &CUTS {
        hears_a_cut_file(&rt, rt.alloc(), &whole, cut)?;
    }
    Ok(())
}

/// Hears a file that is cut and changed, and ends the test unless it is heard so.
fn hears_a_cut_file<R: Threads + Wait + Net + Sync + Abort>(
    rt: &R,
    alloc: Global,
    whole: &[u8],
    cut: &Cut,
) -> Result<(), Fail> {
    let (length, place, octets, lines, status, report) = cut;
    let mut file = whole.to_vec(alloc)?;
    file.truncate(*length);
    change(&mut file, *place, octets);
    let got = run_over(rt, alloc, "decode --wav", &file)?;
    assert_ended(rt, report, &got, (*status, lines.len(), report));
    assert_equal(
        rt,
        &(*report, got.output.as_slice()),
        &(*report, lines.as_bytes()),
    );
    Ok(())
}

/// Puts octets into a file from a place on.
fn change(file: &mut [u8], place: usize, octets: &[u8]) {
    for (changed, octet) in file.iter_mut().skip(place).zip(octets) {
        *changed = *octet;
    }
}

#[test]
fn what_is_cut_off_or_no_signal_gives_no_line(rt: HostRuntime) -> Result<(), Fail> {
    let mut cut = run_over(&rt, rt.alloc(), SHORT_FLAGS, SHORTEST.as_bytes())?.output;
    cut.truncate(2560);
    let mut loud = Vec::new(rt.alloc());
    for _ in 0..64 {
        loud.extend_from_slice(&i16::MIN.to_le_bytes())?;
    }
    for input in [&cut, &loud] {
        let got = run_over(&rt, rt.alloc(), "decode", input)?;
        assert_ended(&rt, "decode", &got, (0, 0, ""));
    }
    Ok(())
}
