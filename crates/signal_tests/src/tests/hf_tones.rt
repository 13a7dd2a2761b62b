//! Tones that banks decide on short wave, as a second program computed them from the definition.

ghost use Rattle.std.specs.Prelude.{◌<◌};

use crate::tests::assertions::assert_equal;
use crate::tests::letters::letter;
use hf_tracking::HfTones;
use std::process::Abort;

/// The first tones of the bank of number 4.
const MIDDLE: &[u8; 48] = b"MMMMMMMMMMSSMMMSMMSSMMMSMMSSMMMMMMMMMMSSMSSSSSMM";

/// The first tones of the bank 75 Hz above it.
const ABOVE: &[u8; 48] = b"MMMMMMMMSSSSSMMMMMMMMMSSSSSSSMSMSMMMMMMSMMSSSSSS";

/// A sample of sound that is as good as noise.
fn sample(index: u32) -> i16
    requires { index < 300 }
{
    (i64::from((7919 * index * index + 104_729 * index) % 65536) - 32768) as i16
}

/// Checks the tones at the first places of a bank.
fn check<R: Abort>(rt: &R, bank: u8, wanted: &[u8])
    requires { bank < 9 }
{
    let mut tones = HfTones::new(bank);
    for index in 0..284_u32 {
        let Some(place) = tones.push(sample(index)) else {
            continue;
        };
        let want = wanted.get(place as usize).copied();
        assert_equal(
            rt,
            &(bank, place, Some(letter(tones.tone_before(0)))),
            &(bank, place, want),
        );
    }
}

#[test]
fn tones_of_two_banks_are_those_of_a_second_program(rt: HostRuntime) {
    check(&rt, 4, MIDDLE.as_slice());
    check(&rt, 7, ABOVE.as_slice());
}
