//! Lines of hexadecimal digits read whole and in pieces, what is printed, and inputs that are read.

use crate::tests::assertions::assert_equal;
use std::alloc::Global;
use std::test::Fail;
use tnc_base::{MemSource, Octets};
use tnc_forms::{
    Fault, HexIn, InputFault, LineFault, LineFlaw, PIECE, print_hex_line, read_all,
    read_hex_frames, read_piece, write_pcm,
};

/// A bad line at a place.
fn bad(flaw: LineFlaw, place: usize) -> InputFault {
    InputFault::Line(LineFault { flaw, place })
}

/// Each row: the input, how many frames stand before its first bad line, and what is wrong with that one. A frame has two
/// octets at least.
const INPUTS: &[(&str, usize, Option<(LineFlaw, usize)>)] = &[
    ("", 0, None),
    ("00ff\n\n\r\n1A2b\r\n", 2, None),
    ("00ff\n1A2b", 2, None),
    ("00ff\n000\n00ff\n", 1, Some((LineFlaw::OddLine, 5))),
    ("00ff\n00fg\n", 1, Some((LineFlaw::BadDigit, 8))),
    ("00\n00ff\n", 0, Some((LineFlaw::ShortLine, 0))),
    ("00ff\n00ff\r", 1, Some((LineFlaw::OddLine, 5))),
];

/// How many frames are read, and the first bad line.
fn frames_of(alloc: Global, input: &str) -> Result<(usize, Option<InputFault>), Fail> {
    let read = read_hex_frames(alloc, 2, input.as_bytes())?;
    Ok((read.frames.len(), read.fault))
}

#[test]
fn inputs_and_their_first_bad_line(rt: HostRuntime) -> Result<(), Fail> {
    for (input, frames, fault) in INPUTS {
        let got = frames_of(rt.alloc(), input)?;
        let fault = fault.map(|(flaw, place)| bad(flaw, place));
        assert_equal(&rt, &(*input, got), &(*input, (*frames, fault)));
    }
    Ok(())
}

/// Whether there is a frame of these octets.
fn is_frame(frame: &Option<Octets>, want: &[u8]) -> bool {
    match frame {
        Some(octets) => octets.as_slice() == want,
        None => false,
    }
}

#[test]
fn a_line_in_pieces(rt: HostRuntime) -> Result<(), Fail> {
    let mut reader = HexIn::new(rt.alloc(), 2);
    let (begun, none) = reader.take(b"1A2")?;
    let (ended, frame) = reader.take(b"b\r\n00f")?;
    let (begun_again, none_again) = reader.take(b"00f")?;
    let fault = reader.finish().err();
    let counts = [begun, ended, begun_again];
    let frames = (
        none.is_none(),
        is_frame(&frame, b"\x1a\x2b"),
        none_again.is_none(),
    );
    let odd = Fault::Input(bad(LineFlaw::OddLine, 6));
    assert_equal(
        &rt,
        &(counts, frames, fault),
        &([3; 3], (true, true, true), Some(odd)),
    );
    Ok(())
}

#[test]
fn frames_and_samples_as_octets(rt: HostRuntime) -> Result<(), Fail> {
    let line = print_hex_line(rt.alloc(), &[0x00, 0x1a, 0xff])?;
    assert!(rt; line.as_slice() == b"001aff\n".as_slice());
    let pcm = write_pcm(rt.alloc(), &[0, 1, -1, 32767, -32768])?;
    assert!(rt; pcm.as_slice() == b"\0\0\x01\0\xff\xff\xff\x7f\0\x80".as_slice());
    Ok(())
}

/// More octets than three pieces.
const MANY: usize = 3 * PIECE + 1;

/// A source of them in pieces of 1000 that fails the reads of these numbers.
fn source(alloc: Global, reads: &[u64]) -> Result<MemSource, Fail> {
    let octets = vec![in alloc; 7; MANY]?;
    Ok(MemSource::new(octets, 1000, reads.to_vec(alloc)?))
}

/// What is read of such a source.
fn read_of(alloc: Global, reads: &[u64]) -> Result<Result<Vec<u8>, Fault>, Fail> {
    let mut input = source(alloc, reads)?;
    Ok(read_all(alloc, &mut input))
}

/// The same after a piece of 100 octets, or what reading that comes to.
fn read_after_piece(
    alloc: Global,
    reads: &[u64],
) -> Result<(Result<usize, Fault>, Result<Vec<u8>, Fault>), Fail> {
    let mut input = source(alloc, reads)?;
    let mut buffer = [0; 100];
    let first = read_piece(&mut input, 0, &mut buffer);
    Ok((first, read_all(alloc, &mut input)))
}

#[test]
fn an_input_is_read_to_its_end_or_to_a_fault(rt: HostRuntime) -> Result<(), Fail> {
    let all = read_of(rt.alloc(), &[])?;
    assert_equal(&rt, &all.as_ref().map(|all| all.len()), &Ok(MANY));
    let got = read_after_piece(rt.alloc(), &[1])?;
    assert_equal(&rt, &got, &(Ok(100), Err(Fault::Read)));
    Ok(())
}
