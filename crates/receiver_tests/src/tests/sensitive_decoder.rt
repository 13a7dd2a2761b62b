//! Transmissions that the eight lanes do not hear, with what a second program heard in them by the definition.

ghost use Rattle.std.specs.Prelude.{◌≡◌, ◌+◌, ◌<◌, ◌≤◌, ◌^◌, length as count, false, OnOk};

use crate::tests::assertions::assert_equal;
use crate::tests::blocks::items_in_blocks;
use crate::tests::noisy_signal::{SILENCE, in_noise, slow};
use crate::tests::places::note;
use crate::tests::worked_signal::transmission;
use sensitive_receiver::{AddedBank, AllOnThreads, SensitiveDecoder};
use slicer_bank::Bank;
use std::alloc::Global;
use std::process::Abort;
use std::test::Fail;
use std::thread::Threads;
use tnc_base::OutOfMemory;

/// The ends and lanes of what the added lanes hear among noise, in their order.
const IN_NOISE: [(u64, u8); 7] = [
    (1295, 18),
    (1296, 8),
    (1296, 17),
    (1296, 21),
    (1296, 22),
    (1297, 9),
    (1297, 20),
];

/// The same of a sender whose clock is a hundredth slow.
const SLOW: [(u64, u8); 6] = [
    (1306, 18),
    (1307, 17),
    (1307, 25),
    (1308, 16),
    (1308, 20),
    (1308, 22),
];

/// What the added lanes hear of samples in which the eight lanes hear nothing, by end and lane. They give it list by list.
fn heard_by_added<R: Abort>(
    rt: &R,
    alloc: Global,
    samples: &[i16],
) -> Result<Vec<(u64, u8)>, OutOfMemory>
    requires { count samples.now < 2 ^ 32 }
{
    assert_equal(rt, &Bank::new(alloc)?.feed(samples)?.len(), &0);
    let mut places = Vec::new(alloc);
    note(rt, &mut places, AddedBank::new(alloc)?.feed(samples)?)?;
    places.sort_unstable();
    Ok(places)
}

#[test]
fn frames_that_the_eight_lanes_miss_are_heard(rt: HostRuntime) -> Result<(), Fail> {
    let sent = transmission(&rt, rt.alloc())?;
    let noisy = in_noise(rt.alloc(), &sent)?;
    assert!(rt; noisy.len() < 2000);
    let heard = heard_by_added(&rt, rt.alloc(), &noisy)?;
    assert_equal(&rt, &heard.as_slice(), &IN_NOISE.as_slice());
    let slow = slow(rt.alloc(), &sent)?;
    assert!(rt; slow.len() < 2000);
    let heard = heard_by_added(&rt, rt.alloc(), &slow)?;
    assert_equal(&rt, &heard.as_slice(), &SLOW.as_slice());
    Ok(())
}

/// Ends the test unless blocks of any length give one item.
fn assert_one_item<R: Abort + Threads + Sync>(
    rt: &R,
    alloc: Global,
    samples: &[i16],
    item: (u64, u8),
) -> Result<(), OutOfMemory>
    requires { count samples.now < 2 ^ 32 }
{
    for length in [1, 7, 15, 16, 38, 39, 40, 96, 2048] {
        let items = items_in_blocks::<SensitiveDecoder, _>(rt, alloc, samples, length, None)?;
        assert_equal(
            rt,
            &(length, items.as_slice()),
            &(length, [item].as_slice()),
        );
    }
    Ok(())
}

#[test]
fn they_are_one_item_in_blocks_of_any_length(rt: HostRuntime) -> Result<(), Fail> {
    let sent = transmission(&rt, rt.alloc())?;
    let noisy = in_noise(rt.alloc(), &sent)?;
    assert!(rt; noisy.len() < 2000);
    assert_one_item(&rt, rt.alloc(), &noisy, (1295, 18))?;
    let slow = slow(rt.alloc(), &sent)?;
    assert!(rt; slow.len() < 2000);
    assert_one_item(&rt, rt.alloc(), &slow, (1306, 18))?;
    Ok(())
}

/// How many items a block settles on threads, and how many candidates are held then.
fn given_and_held<R: Threads + Sync>(
    rt: &R,
    decoder: &mut SensitiveDecoder,
    block: &[i16],
) -> Result<(usize, usize), OutOfMemory>
    requires few { count block.now ≤ 2048 }
    requires room { decoder.old.position + count block.now < 2 ^ 48 }
    requires unfinished { decoder.old.finished ≡ false }
    ensures position { OnOk result (decoder.new.position ≡ decoder.old.position + count block.now) }
    ensures unfinished { decoder.new.finished ≡ false }
{
    let given = decoder.block_by(&AllOnThreads { rt }, block)?.len();
    Ok((given, decoder.held()))
}

/// Ends the test unless the item of a transmission and silence comes when 33 samples follow its end.
fn assert_item_comes<R: Abort + Threads + Sync>(
    rt: &R,
    decoder: &mut SensitiveDecoder,
    samples: &[i16],
) -> Result<(), Fail>
    requires whole { count samples.now ≡ 1360 }
    requires begins { decoder.old.position ≡ 0 }
    requires unfinished { decoder.old.finished ≡ false }
{
    let (first, rest) = samples.split_at(1326);
    let (next, last) = rest.split_at(1);
    let (given, _) = given_and_held(rt, decoder, first)?;
    assert_equal(rt, &given, &0);
    let (given, held) = given_and_held(rt, decoder, next)?;
    assert_equal(rt, &(given, held > 0), &(1, true));
    let (given, _) = given_and_held(rt, decoder, last)?;
    assert_equal(rt, &given, &0);
    let given = decoder.finish()?.len();
    assert_equal(rt, &(given, decoder.held()), &(0, 0));
    Ok(())
}

#[test]
fn an_item_comes_when_33_samples_follow_its_end(rt: HostRuntime) -> Result<(), Fail> {
    let mut samples = transmission(&rt, rt.alloc())?;
    samples.extend_from_slice(&[0; SILENCE])?;
    assert!(rt; samples.len() == 1360);
    let mut decoder = SensitiveDecoder::new(rt.alloc())?;
    assert_item_comes(&rt, &mut decoder, &samples)
}
