//! Windows of the two tones, against the samples of a sine.
use crate::tests::assertions::assert_equal;
use tone_table::{Tone, advance, sine, step};

#[test]
fn a_space_and_a_mark_from_phase_zero_are_the_known_windows(rt: HostRuntime) {
    let windows = [
        (
            0,
            Tone::Space,
            11,
            40,
            [0, 9914, 2588, -9239, -5000, 7934, 7071, -6088],
        ),
        (
            0,
            Tone::Mark,
            6,
            0,
            [0, 7071, 10000, 7071, 0, -7071, -10000, -7071],
        ),
        (
            40,
            Tone::Space,
            11,
            32,
            [-8660, 3827, 9659, -1305, -10000, -1305, 9659, 3827],
        ),
    ];
    for (start, tone, want_step, want_next, want) in windows {
        assert_equal(
            &rt,
            &(step(tone), advance(start, tone)),
            &(want_step, want_next),
        );
        let mut phase = start;
        for sample in want {
            assert!(rt; phase < 48);
            assert_equal(&rt, &(phase, sine(phase)), &(phase, sample));
            phase = (phase + step(tone)) % 48;
        }
    }
}
