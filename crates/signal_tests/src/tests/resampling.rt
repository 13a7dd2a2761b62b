//! The filter between 48,000 and 9600 samples a second. A second program computed the expected samples by the sums over
//! all taps.

use crate::tests::assertions::assert_equal;
use resampler::{Decimator, Interpolator, LowPass};
use std::test::Fail;

/// Full scale up and down, so that the filter swings past it, and a little sound.
const LOUD: [i16; 19] = [
    32767, 32767, 32767, 32767, 32767, 32767, 32767, 32767, -32768, -32768, -32768, -32768, -32768,
    -32768, -32768, -32768, 1000, -1000, 5,
];

/// The same, filtered.
const FILTERED: [i16; 19] = [
    20991, 28736, 32767, 32767, 32767, 30364, 20215, 7092, -7116, -20228, -30359, -32768, -32768,
    -32768, -28689, -20957, -13043, -6252, -1315,
];

#[test]
fn a_filter_gives_the_same_samples_however_they_are_cut(rt: HostRuntime) -> Result<(), Fail> {
    for cut in [0, 1, 16, 19] {
        assert!(rt; cut <= LOUD.len());
        let (first, second) = LOUD.split_at(cut);
        let mut filter = LowPass::new();
        let mut given = Vec::new(rt.alloc());
        let mut out = [0; 19];
        let count = filter.feed(first, &mut out);
        given.extend_from_slice(&out[..count])?;
        let count = filter.feed(second, &mut out);
        given.extend_from_slice(&out[..count])?;
        let mut rest = [0; 15];
        let count = filter.finish(&mut rest);
        given.extend_from_slice(&rest[..count])?;
        assert_equal(&rt, &(cut, given.as_slice()), &(cut, FILTERED.as_slice()));
    }
    Ok(())
}

#[test]
fn a_decimator_gives_each_fifth_of_them(rt: HostRuntime) -> Result<(), Fail> {
    let mut decimator = Decimator::new();
    let mut given = Vec::new(rt.alloc());
    let mut out = [0; 19];
    let count = decimator.feed(&LOUD, &mut out);
    given.extend_from_slice(&out[..count])?;
    assert_equal(&rt, &given.as_slice(), &[20991].as_slice());
    let mut rest = [0; 15];
    let count = decimator.finish(&mut rest);
    given.extend_from_slice(&rest[..count])?;
    assert_equal(
        &rt,
        &given.as_slice(),
        &[20991, 30364, -30359, -20957].as_slice(),
    );
    Ok(())
}

#[test]
fn an_interpolator_gives_five_samples_for_each(rt: HostRuntime) -> Result<(), Fail> {
    let table: [(i16, [i16; 5]); 7] = [
        (1000, [4, 19, 29, 34, 19]),
        (-1000, [-25, -93, -157, -176, -113]),
        (32767, [213, 952, 1570, 1979, 1626]),
        (-32768, [122, -2386, -4886, -5995, -4335]),
        (32767, [997, 9893, 20100, 28668, 32646]),
        (-32768, [29385, 18511, 2735, -13285, -25028]),
        (7, [-28456, -22100, -8195, 8130, 22059]),
    ];
    let mut interpolator = Interpolator::new();
    for (sample, wanted) in table {
        let given = interpolator.push(sample);
        assert_equal(&rt, &(sample, given), &(sample, wanted));
    }
    Ok(())
}
