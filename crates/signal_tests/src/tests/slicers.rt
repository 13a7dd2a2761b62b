//! Windows whose correlations, energies and tones a second program computed, and where slicers end windows.
use crate::tests::assertions::assert_equal;
use offset_slicers::{
    Decision, SlicedBit, Slicer, correlate, decide, energies, near_windows, pure_windows,
};
use std::process::Abort;
use tone_table::Tone;

/// A space from phase 0, which ends at phase 40.
const SPACE: [i16; 8] = [0, 9914, 2588, -9239, -5000, 7934, 7071, -6088];
/// The same at level 10.
const QUIET_SPACE: [i16; 8] = [0, 9, 2, -9, -5, 7, 7, -6];
/// The space that follows it, which ends at phase 32.
const SPACE_ON: [i16; 8] = [-8660, 3827, 9659, -1305, -10000, -1305, 9659, 3827];
/// The mark that follows that.
const MARK_ON: [i16; 8] = [-8660, -9659, -5000, 2588, 8660, 9659, 5000, -2588];

#[test]
fn correlations_energies_and_tones_of_known_windows(rt: HostRuntime) {
    let windows = [
        (
            SPACE,
            [-53110141, 86281301, 365355402, 26603274],
            (10265149979292482, 134192303958100680),
            Tone::Space,
        ),
        (
            MARK_ON,
            [-199998082, -346397074, -48164608, 58163513],
            (159990165679440200, 5702823708294833),
            Tone::Mark,
        ),
        (
            QUIET_SPACE,
            [-57071, 85355, 344116, 24293],
            (10542575066, 119005971305),
            Tone::Space,
        ),
        ([0; 8], [0; 4], (0, 0), Tone::Mark),
        (
            [-32768; 8],
            [0, 0, -235274240, 79888384],
            (0, 61736121905709056),
            Tone::Space,
        ),
    ];
    pure_windows();
    near_windows();
    for (window, sums, both, tone) in windows {
        let got = (correlate(&window), energies(&window), decide(&window));
        assert_equal(&rt, &got, &(sums, both, tone));
    }
}

/// Pushes so many samples of silence, at none of which a window ends.
fn push_silence<R: Abort>(rt: &R, slicer: &mut Slicer, count: u64) {
    for _ in 0..count {
        assert!(*rt; slicer.position() < 1000);
        assert_equal(rt, &slicer.push(0), &None);
    }
}

/// Pushes a window of its offset, at the end of which alone there is this bit.
fn push_window<R: Abort>(rt: &R, slicer: &mut Slicer, window: &[i16; 8], bit: bool) {
    for (place, sample) in window.iter().enumerate() {
        assert!(*rt; slicer.position() < 1000);
        let got = slicer.push(*sample);
        let wanted = if place == 7 { Some(bit) } else { None };
        assert_equal(rt, &(place, got), &(place, wanted));
    }
}

/// Pushes three windows of its offset on a line that stands at mark.
fn push_three<R: Abort>(rt: &R, slicer: &mut Slicer) {
    push_window(rt, slicer, &SPACE, false);
    push_window(rt, slicer, &SPACE_ON, true);
    push_window(rt, slicer, &MARK_ON, false);
}

#[test]
fn each_offset_gives_one_bit_at_the_end_of_each_of_its_windows(rt: HostRuntime) {
    for offset in 0..8 {
        let mut slicer = Slicer::new(offset);
        push_silence(&rt, &mut slicer, offset.into());
        push_three(&rt, &mut slicer);
        push_window(&rt, &mut slicer, &[0; 8], true);
        push_window(&rt, &mut slicer, &[0; 8], true);
        let position = u64::from(offset) + 40;
        assert_equal(&rt, &(offset, slicer.position()), &(offset, position));
    }
}

/// Pushes so many samples before a skip, and known windows after it.
fn skip<R: Abort>(rt: &R, offset: u8, before: u64, to: u64, silent: u64) {
    assert!(*rt; offset < 8);
    let mut slicer = Slicer::new(offset);
    for _ in 0..before {
        assert!(*rt; slicer.position() < 1000);
        slicer.push(-32768);
    }
    assert!(*rt; slicer.position() <= to && to <= 1000);
    slicer.skip(to);
    assert_equal(rt, &slicer.position(), &to);
    push_silence(rt, &mut slicer, silent);
    push_three(rt, &mut slicer);
}

#[test]
fn after_a_skip_the_first_window_of_the_offset_is_heard_from_mark(rt: HostRuntime) {
    // The offset, the samples before the skip, where it goes, and the samples before the next window there.
    skip(&rt, 0, 0, 0, 0);
    skip(&rt, 0, 0, 1, 7);
    skip(&rt, 3, 20, 20, 7);
    skip(&rt, 3, 20, 27, 0);
    skip(&rt, 7, 25, 40, 7);
    skip(&rt, 5, 8, 98, 3);
}

/// The sums of the tone that each of three windows in a row is decided as, and their bits.
#[test]
fn a_bit_comes_with_its_window_and_the_sums_of_its_tone(rt: HostRuntime) {
    let mut slicer = Slicer::new(0);
    let windows = [
        (SPACE, false, Tone::Space, 365355402, 26603274),
        (QUIET_SPACE, true, Tone::Space, 344116, 24293),
        (MARK_ON, false, Tone::Mark, -199998082, -346397074),
    ];
    for (window, bit, tone, sine, cosine) in windows {
        let decision = Decision { tone, sine, cosine };
        assert_equal(&rt, &Decision::of(&window), &decision);
        let mut last = None;
        for sample in window {
            assert!(rt; slicer.position() < 1000);
            assert_equal(&rt, &last, &None);
            last = slicer.slice(sample);
        }
        let sliced = SlicedBit {
            bit,
            window,
            decision,
        };
        assert_equal(&rt, &last, &Some(sliced));
    }
}
