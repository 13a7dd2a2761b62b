//! Each bit ends what the slow program finds.
use super::definition::event_at_end;
use super::line::{frame_of, next_word, sent};
use crate::tests::assertions::assert_equal;
use crate::tests::shortest_frame::SHORTEST;
use hdlc_framer::Deframer;
use std::alloc::{AllocError, Global};
use std::process::Abort;
use std::test::Fail;

/// Each event is that of the slow program.
fn compare<R: Abort>(rt: &R, alloc: Global, bits: &[bool], name: &str) -> Result<(), AllocError> {
    let mut deframer = Deframer::new();
    for at in 0..bits.len() {
        let wanted = event_at_end(alloc, &bits[..at + 1])?;
        let event = deframer.push(bits[at]);
        assert_equal(rt, &(name, at, event), &(name, at, wanted));
    }
    Ok(())
}

/// The shortest frame between two flags without its last bits, other bits in their place, and the frame once more.
fn spoiled(alloc: Global, lost: usize, middle: &str) -> Result<Vec<bool>, AllocError> {
    let good = sent(alloc, &[SHORTEST], 1, 1)?;
    let mut bits = Vec::from_slice(alloc, good.as_slice())?;
    bits.truncate(good.len().saturating_sub(lost));
    for digit in middle.bytes() {
        bits.push(digit == b'1')?;
    }
    bits.extend_from_slice(good.as_slice())?;
    Ok(bits)
}

/// The same of a frame that is spoiled and then sent once more.
fn compare_spoiled<R: Abort>(
    rt: &R,
    alloc: Global,
    name: &str,
    lost: usize,
    middle: &str,
) -> Result<(), AllocError> {
    let bits = spoiled(alloc, lost, middle)?;
    compare(rt, alloc, bits.as_slice(), name)
}

#[test]
fn agrees_on_broken_frames(rt: HostRuntime) -> Result<(), Fail> {
    for &(name, lost, middle) in &[
        ("a good frame", 0, ""),
        ("the last inserted zero is missing", 9, "01111110"),
        ("a bit too many", 8, "101111110"),
        ("a bit too few", 11, "01111110"),
        ("six 1s inside", 60, "1111110"),
        (
            "flags that share a zero",
            200,
            "0111111011111101111110111111",
        ),
        ("an abort inside", 60, "111111111110"),
        ("seven 1s at the start", 200, "1111111011111110"),
        ("six 1s at the start", 200, "1111110"),
    ] {
        compare_spoiled(&rt, rt.alloc(), name, lost, middle)?;
    }
    Ok(())
}

/// Random bits with many 1s, and the shortest frame after them.
fn random_bits(alloc: Global, seed: u32) -> Result<Vec<bool>, AllocError> {
    let mut bits = Vec::new(alloc);
    let mut word = seed;
    for _ in 0..120 {
        word = next_word(word);
        bits.push(word >= 0x3000_0000)?;
    }
    bits.extend_from_slice(sent(alloc, &[SHORTEST], 1, 1)?.as_slice())?;
    Ok(bits)
}

#[test]
fn agrees_on_random_bits(rt: HostRuntime) -> Result<(), Fail> {
    for seed in 1..9 {
        let bits = random_bits(rt.alloc(), seed)?;
        compare(&rt, rt.alloc(), bits.as_slice(), "random bits")?;
    }
    Ok(())
}

#[test]
fn agrees_on_neighbours(rt: HostRuntime) -> Result<(), Fail> {
    let other = frame_of(rt.alloc(), 17, 5)?;
    let short = frame_of(rt.alloc(), 14, 3)?;
    let bits = sent(
        rt.alloc(),
        &[SHORTEST, other.as_slice(), short.as_slice(), SHORTEST],
        1,
        2,
    )?;
    compare(
        &rt,
        rt.alloc(),
        bits.as_slice(),
        "one flag between neighbours, and one of 16 octets",
    )?;
    Ok(())
}
