//! Worked windows and transmissions, and the rules that a transmission must keep.
use crate::tests::assertions::assert_equal;
use crate::tests::shortest_frame::SHORTEST;
use afsk_modulator::{ModFault, Modulator, transmission, transmission_at};
use std::alloc::Global;
use std::test::Fail;
use tnc_base::Octets;
use tone_table::Tone;

/// Frames of these lengths, of the shortest frame's octets and then zeros.
fn frames(alloc: Global, lengths: &[usize]) -> Result<Vec<Octets>, Fail> {
    let mut frames = Vec::new(alloc);
    for length in lengths {
        let mut octets = SHORTEST.to_vec(alloc)?;
        octets.resize(*length, 0)?;
        frames.push(Octets::from_slice(alloc, &octets)?)?;
    }
    Ok(frames)
}

#[test]
fn windows_follow_each_other_at_the_phase(rt: HostRuntime) {
    let mut modulator = Modulator::new();
    let windows = [
        (
            Tone::Space,
            [0, 9914, 2588, -9239, -5000, 7934, 7071, -6088],
        ),
        (
            Tone::Space,
            [-8660, 3827, 9659, -1305, -10000, -1305, 9659, 3827],
        ),
        (
            Tone::Mark,
            [-8660, -9659, -5000, 2588, 8660, 9659, 5000, -2588],
        ),
    ];
    for (tone, window) in windows {
        assert_equal(&rt, &modulator.next(tone), &window);
    }
}

#[test]
fn the_shortest_frame_is_sent_as_bell_202_does(rt: HostRuntime) -> Result<(), Fail> {
    let samples = transmission(rt.alloc(), &frames(rt.alloc(), &[15])?, 2, 1)?;
    assert_equal(&rt, &samples.len(), &1296);
    let begins = [0, 9914, 2588, -9239, -5000, 7934, 7071, -6088, -8660, 3827];
    assert!(rt; samples.starts_with(&begins));
    Ok(())
}

/// The first flag begins with a space.
#[test]
fn a_level_rounds_towards_zero_and_a_phase_shifts(rt: HostRuntime) -> Result<(), Fail> {
    let frames = frames(rt.alloc(), &[15])?;
    let table = [
        (0, 10, [0, 9, 2, -9, -5, 7, 7, -6]),
        (
            0,
            32767,
            [0, 32485, 8480, -30273, -16383, 25997, 23169, -19948],
        ),
        (
            40,
            10000,
            [-8660, 3827, 9659, -1305, -10000, -1305, 9659, 3827],
        ),
    ];
    for (phase, level, first) in table {
        let samples = transmission_at(rt.alloc(), phase, level, &frames, 2, 1)?;
        assert!(rt; samples.starts_with(&first), "phase {phase}, level {level}");
        assert_equal(&rt, &samples.len(), &1296);
    }
    Ok(())
}

#[test]
fn a_transmission_at_a_level_needs_two_flags(rt: HostRuntime) -> Result<(), Fail> {
    let frames = frames(rt.alloc(), &[15])?;
    let fault = transmission_at(rt.alloc(), 8, 20000, &frames, 1, 1).err();
    assert_equal(&rt, &fault, &Some(ModFault::FewFlags));
    Ok(())
}

/// Eight samples a bit: a frame of 138 bits with its flags, two with one flag between them, and none.
#[test]
fn a_transmission_has_eight_samples_a_bit(rt: HostRuntime) -> Result<(), Fail> {
    let table: [(&[usize], u16, u16, usize); 4] = [
        (&[15], 2, 1, 162),
        (&[15, 15], 2, 1, 308),
        (&[15], 75, 2, 754),
        (&[], 2, 1, 24),
    ];
    for (lengths, opening, closing, bits) in table {
        let samples = transmission(rt.alloc(), &frames(rt.alloc(), lengths)?, opening, closing)?;
        assert_equal(&rt, &(lengths, samples.len()), &(lengths, 8 * bits));
    }
    Ok(())
}

#[test]
fn the_first_rule_that_is_broken_is_told(rt: HostRuntime) -> Result<(), Fail> {
    let table: [(&[usize], u16, u16, Option<ModFault>); 9] = [
        (&[15], 1, 1, Some(ModFault::FewFlags)),
        (&[15], 2, 0, Some(ModFault::FewFlags)),
        (&[14], 0, 0, Some(ModFault::FewFlags)),
        (&[15, 14], 2, 1, Some(ModFault::BadLength { index: 1 })),
        (
            &[15, 0, 15, 14],
            2,
            1,
            Some(ModFault::BadLength { index: 1 }),
        ),
        (&[1025], 2, 1, Some(ModFault::BadLength { index: 0 })),
        (&[1024, 1025], 2, 1, Some(ModFault::BadLength { index: 1 })),
        (&[1024], 2, 1, None),
        (&[15], 2, 1, None),
    ];
    for (lengths, opening, closing, fault) in table {
        let frames = frames(rt.alloc(), lengths)?;
        let got = transmission(rt.alloc(), &frames, opening, closing).err();
        let case = (lengths, opening, closing);
        assert_equal(&rt, &(case, got), &(case, fault));
    }
    Ok(())
}
