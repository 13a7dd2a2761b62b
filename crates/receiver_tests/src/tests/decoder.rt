//! A transmission in blocks of several lengths, on one thread and on two: the same one item comes, and little is kept.

ghost use Rattle.std.specs.Prelude.{◌≡◌, length as count, false};

use crate::tests::assertions::assert_equal;
use crate::tests::block_decoder::BlockDecoder;
use crate::tests::blocks::items_in_blocks;
use crate::tests::meeting::Meeting;
use crate::tests::worked_signal::transmission;
use slicer_bank::Decoder;
use std::process::Abort;
use std::test::Fail;

/// Where the item of the transmission ends, and its offset.
const ITEM: [(u64, u8); 1] = [(1294, 6)];

#[test]
fn a_transmission_gives_one_item_in_blocks_of_any_length(rt: HostRuntime) -> Result<(), Fail> {
    let samples = transmission(&rt, rt.alloc())?;
    for length in [1, 7, 96, 1296, 2048] {
        let items = items_in_blocks::<Decoder, _>(&rt, rt.alloc(), &samples, length, None)?;
        assert_equal(&rt, &(length, items.as_slice()), &(length, ITEM.as_slice()));
    }
    Ok(())
}

#[test]
fn two_threads_give_what_one_gives(rt: HostRuntime) -> Result<(), Fail> {
    let samples = transmission(&rt, rt.alloc())?;
    let meeting = Meeting::with_lane(7);
    for length in [96, 1296, 2048] {
        let items = items_in_blocks::<Decoder, _>(
            &rt,
            rt.alloc(),
            &samples,
            length,
            Some(&meeting),
        )?;
        assert_equal(&rt, &(length, items.as_slice()), &(length, ITEM.as_slice()));
    }
    Ok(())
}

/// Ends the test unless the item of a transmission comes when a sample follows its end.
fn assert_item_comes<R: Abort>(rt: &R, decoder: &mut Decoder, samples: &[i16]) -> Result<(), Fail>
    requires whole { count samples.now ≡ 1296 }
    requires begins { decoder.old.position ≡ 0 }
    requires unfinished { decoder.old.finished ≡ false }
{
    let (first, rest) = samples.split_at(1294);
    let (next, last) = rest.split_at(1);
    let given = decoder.hear(first)?.len();
    assert_equal(rt, &(given, decoder.held()), &(0, 1));
    let given = decoder.hear(next)?.len();
    assert_equal(rt, &given, &1);
    let given = decoder.hear(last)?.len();
    assert_equal(rt, &(given, decoder.held()), &(0, 3));
    let given = decoder.end()?.len();
    assert_equal(rt, &(given, decoder.held()), &(0, 0));
    Ok(())
}

#[test]
fn an_item_comes_when_a_sample_follows_its_end(rt: HostRuntime) -> Result<(), Fail> {
    let samples = transmission(&rt, rt.alloc())?;
    let mut decoder = Decoder::start(rt.alloc())?;
    assert_item_comes(&rt, &mut decoder, &samples)
}
