//! Tones and readings of a transmission in strong noise, as a second program computed them from the definition.

ghost use Rattle.std.specs.Prelude.{◌≡◌, ◌+◌, ◌<◌, ◌^◌, OnOk, length};

use crate::tests::assertions::assert_equal;
use crate::tests::letters::letter;
use std::alloc::AllocError;
use std::test::Fail;
use tone_table::Tone;
use tone_tracking::{BitClock, MeanRemover, PlaceTones, Pull, Reach, ToneLine, ToneLists};

/// The first fourteen bits of a transmission, and noise as loud as it.
const SAMPLES: [i16; 112] = [
    -11851, 9163, -109, -7196, -5718, -3248, -2467, 601, -19189, 1728, 19401, -3471, -9668, -5849,
    8636, -6229, -5860, -4608, 18705, -941, -3163, -1406, 12322, 20189, -3727, -8624, -5204, -2259,
    2338, -9841, -6930, 17795, 5260, -8588, -7341, -9364, 14936, 9991, -1487, -3629, 641, -4372,
    -17036, -2694, 16870, 638, -8587, -17374, -3496, -2047, 6737, -18042, -8723, 2949, 3549, -6958,
    -20282, -14550, 2499, 19827, -3092, -8164, 6752, -9684, 1557, 2325, 11789, -6458, -15162,
    -11527, 13159, 11886, -16937, 5638, 11671, 2380, -9661, 579, 6122, 20523, 10363, -7041, -6593,
    13680, 11522, -6987, -13492, 14980, 8281, -544, -13490, -5205, 12217, 7062, -550, -5466, 4900,
    17944, 704, -2550, 16710, 6064, -8009, -11175, -10371, 2239, 502, -2907, -768, 5356, 11464,
    -16207,
];

/// The tones decided over three windows.
const NEAR: &[u8; 89] =
    b"SSSSSSSSSSSSSSSSSSSSSSSSSSSSSSSSSSMSSSSSSSSSSSSSSSSSSSMMMMMMMMSSSSSSSSSSSSSSSSSSSSSSSSSSS";

/// The tones decided over all windows before and two after.
const FAR: &[u8; 89] =
    b"SSSSSSSSSSSSSSSSSSSSSSSSSSSSSSSSSSSSSSSSSSSSSSSSSSSSSMMMMMMMMSSSSSSSSSSSSSSSSSSSSSSSSSSSS";

/// The tones of windows that are decided alone.
const ALONE: &[u8; 89] =
    b"SSSSSSSSSSSSSSSSSSSMMMSSSSSSSSSSSMSMMMSSSSSMSSSSSSSSSMSSSSMMMSSSSSSSSSSSSMSMSSSSSSSSSSSSS";

/// Where a slow clock on the first list reads bits.
const SLOW: &[u8; 89] =
    b"....1.......1.......1.......1.......1.......1.......1.......1.......1.......1.......1....";

/// Where a fast one does.
const FAST: &[u8; 89] =
    b"....1.......1.......1.......1.........1.......1.......1......1......1.......1.......1....";

/// Where a slow clock on the last list does.
const SLOW_ALONE: &[u8; 89] =
    b"....1.......1.......1.......1........1.......1.......1.......1......1........1.......1...";

/// The samples without their mean, in quarters.
const LEVELS: [i32; 97] = [
    -42970, 41818, 5306, -25380, -19350, -9075, -5775, 4957, -76727, 7407, 79177, -11661, -36166,
    -21183, 37988, -20606, -21355, -18485, 76985, -695, -9312, -4865, 48392, 79737, -15398, -37465,
    -23022, -6688, 11603, -40430, -29597, 71456, 22709, -32978, -28310, -34906, 64431, 45346,
    -1110, -8582, 11892, -6091, -56006, 399, 75894, 11645, -25465, -62323, -3376, 2883, 36655,
    -64852, -27940, 22511, 27600, -16258, -71494, -46369, 20576, 86300, -6010, -22982, 36689,
    -30893, 9334, 10673, 49153, -22168, -60950, -48940, 51046, 48084, -69950, 16779, 39161, 3995,
    -41040, -1993, 18275, 76792, 35625, -34409, -34569, 47908, 38788, -39232, -67451, 49083, 25169,
    -10951, -62310, -27774, 42575, 20843, -10202, -30534, 15521,
];

fn mark(read: bool) -> u8 {
    if read { b'1' } else { b'.' }
}

#[test]
fn tones_and_readings_in_noise_are_those_of_a_second_program(rt: HostRuntime) {
    let mut lists = ToneLists::new();
    let mut slow = BitClock::new(Pull::Slow);
    let mut fast = BitClock::new(Pull::Fast);
    let mut slow_alone = BitClock::new(Pull::Slow);
    for (index, sample) in SAMPLES.iter().enumerate() {
        let decided = lists.push(i32::from(*sample));
        assert_equal(&rt, &(index, decided), &(index, index >= 23));
        if index >= 23 {
            let place = index - 23;
            assert!(rt; place < 89);
            let near = lists.tone_before(Reach::Near, 0);
            let far = lists.tone_before(Reach::Far, 0);
            let alone = lists.tone_before(Reach::Alone, 0);
            let tones = (letter(near), letter(far), letter(alone));
            let readings = (
                mark(slow.step(near)),
                mark(fast.step(near)),
                mark(slow_alone.step(alone)),
            );
            let wanted_tones = (NEAR[place], FAR[place], ALONE[place]);
            let wanted_readings = (SLOW[place], FAST[place], SLOW_ALONE[place]);
            assert_equal(
                &rt,
                &(place, tones, readings),
                &(place, wanted_tones, wanted_readings),
            );
        }
    }
}

#[test]
fn samples_without_their_mean_are_those_of_a_second_program(rt: HostRuntime) {
    let mut remover = MeanRemover::new();
    for (index, sample) in SAMPLES.iter().enumerate() {
        let want = if index < 15 {
            None
        } else {
            LEVELS.get(index - 15).copied()
        };
        assert_equal(&rt, &(index, remover.push(*sample)), &(index, want));
    }
}

/// The tones of a place.
fn tones(near: Tone, far: Tone, alone: Tone) -> Option<PlaceTones> {
    Some(PlaceTones::new(alone, near, far))
}

/// How many tones a line has past a block, and the last of them.
fn last_past(line: &mut ToneLine, block: &[i16]) -> Result<(usize, Option<PlaceTones>), AllocError>
    requires { line.old.count + length block.now < 2 ^ 48 }
    ensures { OnOk result (line.new.count ≡ line.old.count + length block.now) }
{
    line.feed(block)?;
    let made = line.line();
    Ok((made.len(), made.last().copied()))
}

#[test]
fn tones_of_blocks_are_those_of_a_second_program(rt: HostRuntime) -> Result<(), Fail> {
    let mut line = ToneLine::new(rt.alloc())?;
    let none = last_past(&mut line, &SAMPLES[..38])?;
    let first = last_past(&mut line, &SAMPLES[38..39])?;
    let more = last_past(&mut line, &SAMPLES[39..59])?;
    let loud = last_past(&mut line, &SAMPLES[59..96])?;
    line.feed_threads(&rt, &SAMPLES[96..])?;
    let rest = line.line();
    assert_equal(&rt, &none, &(0, None));
    assert_equal(
        &rt,
        &first,
        &(1, tones(Tone::Space, Tone::Space, Tone::Space)),
    );
    assert_equal(
        &rt,
        &more,
        &(20, tones(Tone::Space, Tone::Space, Tone::Mark)),
    );
    assert_equal(
        &rt,
        &loud,
        &(37, tones(Tone::Mark, Tone::Mark, Tone::Space)),
    );
    assert_equal(&rt, &rest.len(), &16);
    let last = tones(Tone::Space, Tone::Space, Tone::Mark);
    assert_equal(&rt, &rest.last().copied(), &last);
    Ok(())
}
