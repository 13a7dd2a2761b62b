//! The bank of eight lanes: the same candidates come however the samples are cut, on one thread and on two.

ghost use Rattle.std.specs.Prelude.{◌+◌, ◌<◌, ◌≤◌, ◌^◌, length as count};

use crate::tests::assertions::assert_equal;
use crate::tests::meeting::Meeting;
use crate::tests::places::note;
use crate::tests::worked_signal::transmission;
use slicer_bank::Bank;
use std::alloc::Global;
use std::process::Abort;
use std::test::Fail;
use std::thread::Threads;
use tnc_base::OutOfMemory;

/// Where the transmission ends for the lanes that hear it, and their offsets.
const HEARD: [(u64, u8); 3] = [(1294, 6), (1295, 7), (1296, 0)];

/// What a bank hears of samples in two blocks.
fn heard_in_two<R: Abort>(
    rt: &R,
    alloc: Global,
    first: &[i16],
    second: &[i16],
) -> Result<Vec<(u64, u8)>, OutOfMemory>
    requires { count first.now + count second.now < 2 ^ 48 }
{
    let mut bank = Bank::new(alloc)?;
    let mut places = Vec::new(alloc);
    note(rt, &mut places, bank.feed(first)?)?;
    note(rt, &mut places, bank.feed(second)?)?;
    Ok(places)
}

#[test]
fn a_transmission_is_heard_alike_however_it_is_cut(rt: HostRuntime) -> Result<(), Fail> {
    let samples = transmission(&rt, rt.alloc())?;
    for place in 0..=1296 {
        let (first, second) = samples.split_at(place);
        let heard = heard_in_two(&rt, rt.alloc(), first, second)?;
        assert_equal(&rt, &(place, heard.as_slice()), &(place, HEARD.as_slice()));
    }
    Ok(())
}

#[test]
fn what_is_cut_off_is_not_heard(rt: HostRuntime) -> Result<(), Fail> {
    let samples = transmission(&rt, rt.alloc())?;
    let (all_but_two_bits, _) = samples.split_at(1280);
    let heard = heard_in_two(&rt, rt.alloc(), all_but_two_bits, &[])?;
    assert_equal(&rt, &heard.len(), &0);
    let (all_but_one_sample, _) = samples.split_at(1295);
    let heard = heard_in_two(&rt, rt.alloc(), all_but_one_sample, &[])?;
    assert_equal(&rt, &heard.as_slice(), &&HEARD[..2]);
    Ok(())
}

/// What a bank hears of samples in blocks of one length, on two threads if there is a gate.
fn heard_in_blocks<R: Abort + Threads + Sync>(
    rt: &R,
    alloc: Global,
    samples: &[i16],
    length: usize,
    gate: Option<&Meeting>,
) -> Result<Vec<(u64, u8)>, OutOfMemory>
    requires some { 0 < length }
    requires few { count samples.now < 2 ^ 32 }
{
    let mut bank = Bank::new(alloc)?;
    let mut places = Vec::new(alloc);
    let mut rest = samples;
    while !rest.is_empty() {
        let (block, after) = rest.split_at(length.min(rest.len()));
        let heard = match gate {
            Some(gate) => bank.feed_threads(rt, block, gate)?,
            None => bank.feed(block)?,
        };
        note(rt, &mut places, heard)?;
        rest = after;
    }
    Ok(places)
}

#[test]
fn blocks_of_one_length_give_the_same_candidates(rt: HostRuntime) -> Result<(), Fail> {
    let samples = transmission(&rt, rt.alloc())?;
    for length in [1, 7, 96, 1296, 2048] {
        let heard = heard_in_blocks(&rt, rt.alloc(), &samples, length, None)?;
        assert_equal(
            &rt,
            &(length, heard.as_slice()),
            &(length, HEARD.as_slice()),
        );
    }
    Ok(())
}

#[test]
fn two_threads_hear_what_one_hears(rt: HostRuntime) -> Result<(), Fail> {
    let samples = transmission(&rt, rt.alloc())?;
    let meeting = Meeting::with_lane(7);
    for length in [96, 1296, 2048] {
        let heard = heard_in_blocks(&rt, rt.alloc(), &samples, length, Some(&meeting))?;
        assert_equal(
            &rt,
            &(length, heard.as_slice()),
            &(length, HEARD.as_slice()),
        );
    }
    // Fourteen blocks of 96 samples, and one of each greater length.
    assert_equal(&rt, &meeting.counts(), &[16, 16, 0]);
    Ok(())
}

/// Whether a bank that listens for so many flags is busy before any sample, after silence, after samples, and after
/// silence again, which is an abort.
fn is_busy(alloc: Global, flags: u8, samples: &[i16]) -> Result<[bool; 4], OutOfMemory>
    requires flags { (1 ≤ flags) × (flags ≤ 8) }
    requires few { count samples.now < 2 ^ 32 }
{
    let mut bank = Bank::listening(alloc, flags)?;
    let before = bank.busy();
    bank.feed(&[0; 96])?;
    let in_silence = bank.busy();
    bank.feed(samples)?;
    let after_samples = bank.busy();
    bank.feed(&[0; 96])?;
    Ok([before, in_silence, after_samples, bank.busy()])
}

#[test]
fn a_bank_is_busy_from_its_flags_to_an_abort(rt: HostRuntime) -> Result<(), Fail> {
    let samples = transmission(&rt, rt.alloc())?;
    for (flags, busy) in [(1, true), (2, true), (3, false)] {
        let got = is_busy(rt.alloc(), flags, &samples)?;
        assert_equal(&rt, &(flags, got), &(flags, [false, false, busy, false]));
    }
    Ok(())
}
