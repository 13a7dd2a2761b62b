//! Tones, bits and frames on short wave.

use crate::tests::assertions::assert_equal;
use crate::tests::blocks::items_in_blocks;
use crate::tests::worked_signal::{SHORTEST, transmission};
use afsk_modulator::ModFault;
use hf_modem::{HfDecoder, HfSlicer, hf_decide};
use hf_sender::hf_transmission;
use std::test::Fail;
use tnc_base::Octets;
use tone_table::Tone;

/// A space from phase 0, which ends at phase 0.
const SPACE: [i16; 32] = [
    0, 9239, 7071, -3827, -10000, -3827, 7071, 9239, 0, -9239, -7071, 3827, 10000, 3827, -7071,
    -9239, 0, 9239, 7071, -3827, -10000, -3827, 7071, 9239, 0, -9239, -7071, 3827, 10000, 3827,
    -7071, -9239,
];

/// A mark from phase 0, which ends at phase 16.
const MARK: [i16; 32] = [
    0, 8660, 8660, 0, -8660, -8660, 0, 8660, 8660, 0, -8660, -8660, 0, 8660, 8660, 0, -8660, -8660,
    0, 8660, 8660, 0, -8660, -8660, 0, 8660, 8660, 0, -8660, -8660, 0, 8660,
];

#[test]
fn the_louder_tone_of_a_window_is_its_tone(rt: HostRuntime) {
    let windows = [
        (SPACE, Tone::Space),
        (MARK, Tone::Mark),
        ([0; 32], Tone::Mark),
        ([-32768; 32], Tone::Mark),
    ];
    for (window, tone) in windows {
        assert_equal(&rt, &(window, hf_decide(&window)), &(window, tone));
    }
}

#[test]
fn a_slicer_gives_one_bit_at_the_end_of_each_of_its_windows(rt: HostRuntime) {
    let mut slicer = HfSlicer::new(5);
    for _ in 0..5 {
        assert!(rt; slicer.position() < 1000);
        assert_equal(&rt, &slicer.push(0), &None);
    }
    for (window, bit) in [(SPACE, false), (SPACE, true), (MARK, false)] {
        for (place, sample) in window.into_iter().enumerate() {
            assert!(rt; slicer.position() < 1000);
            let want = if place == 31 { Some(bit) } else { None };
            assert_equal(&rt, &(place, slicer.push(sample)), &(place, want));
        }
    }
    assert_equal(&rt, &slicer.position(), &101);
}

// 162 bits of 32 samples: the frame ends with the last of 5184, a quarter of which is 1296, and slicers hear it just
// before.
#[test]
fn the_shortest_frame_is_sent_and_heard_in_blocks_of_any_length(
    rt: HostRuntime,
) -> Result<(), Fail> {
    let frame = Octets::from_slice(rt.alloc(), &SHORTEST)?;
    let frames = std::slice::from_ref(&frame);
    let samples = hf_transmission(rt.alloc(), 10000, frames, 2, 1)?;
    assert!(rt; samples.len() == 5184);
    assert!(rt; samples.starts_with(&SPACE));
    for length in [1, 100, 2048] {
        let places = items_in_blocks::<HfDecoder, _>(&rt, rt.alloc(), &samples, length, None)?;
        assert_equal(&rt, &(length, places.len()), &(length, 1));
        assert!(rt; places.iter().all(|(end, _)| *end >= 1289 && *end <= 1303));
    }
    Ok(())
}

#[test]
fn no_closing_flag_is_too_few(rt: HostRuntime) {
    let fault = hf_transmission(rt.alloc(), 10000, &[], 2, 0).err();
    assert_equal(&rt, &fault, &Some(ModFault::FewFlags));
}

#[test]
fn sound_of_1200_baud_gives_nothing(rt: HostRuntime) -> Result<(), Fail> {
    let samples = transmission(&rt, rt.alloc())?;
    let places = items_in_blocks::<HfDecoder, _>(&rt, rt.alloc(), &samples, 2048, None)?;
    assert_equal(&rt, &places.len(), &0);
    Ok(())
}
