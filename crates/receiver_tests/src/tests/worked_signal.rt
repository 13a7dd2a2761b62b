//! The shortest frame, and the samples of its transmission.

ghost use Rattle.std.specs.Prelude.{◌≡◌, IfOk, length as count};

use std::alloc::{AllocError, Global};
use std::process::Abort;

/// SABM with P from N7LEM to NJ7P, the shortest frame.
pub(crate) const SHORTEST: [u8; 15] =
    *b"\x9c\x94\x6e\xa0\x40\x40\xe0\x9c\x6e\x98\x8a\x9a\x40\x61\x3f";

/// The tones of the shortest frame between two flags and one, 162 bits in all, M for mark and S for space.
const TONES: &[u8; 162] =
    b"SSSSSSSMSSSSSSSMSMMMMSMMSMMSSMSSMMMMSSSMSMSMSSMMSMSMSMMSMSMSMSSMSMSMSSSSMSSSSMSSMMMMSSSMSMSSSMSSMMSSMSMMSSMMMSMMSMSMSMMSSMSMSSSMMMMMMSSMSMMMSSMSSSMSSSSSSMSSSSSSSM";

/// A cycle of a sine wave of amplitude 10000 in 48 steps.
const SINE: [i16; 48] = [
    0, 1305, 2588, 3827, 5000, 6088, 7071, 7934, 8660, 9239, 9659, 9914, 10000, 9914, 9659, 9239,
    8660, 7934, 7071, 6088, 5000, 3827, 2588, 1305, 0, -1305, -2588, -3827, -5000, -6088, -7071,
    -7934, -8660, -9239, -9659, -9914, -10000, -9914, -9659, -9239, -8660, -7934, -7071, -6088,
    -5000, -3827, -2588, -1305,
];

/// Eight samples a tone: mark is 6 steps a sample, space 11.
pub(crate) fn transmission<R: Abort>(rt: &R, alloc: Global) -> Result<Vec<i16>, AllocError>
    ensures { IfOk result (λ samples. count samples.items ≡ 1296) }
{
    let mut samples = Vec::new(alloc);
    let mut phase = 0usize;
    for tone in TONES {
        let step = if *tone == b'M' { 6 } else { 11 };
        for _ in 0..8 {
            samples.push(SINE[phase % 48])?;
            phase = (phase % 48 + step) % 48;
        }
    }
    assert!(*rt; samples.len() == 1296);
    Ok(samples)
}

/// Repeats each sample five times, for a receiver of 48,000 a second. So many zeros stand before them.
pub(crate) fn wide(alloc: Global, samples: &[i16], zeros: usize) -> Result<Vec<i16>, AllocError> {
    let mut wide = vec![in alloc; 0; zeros]?;
    for sample in samples {
        wide.extend_from_slice(&[*sample; 5])?;
    }
    Ok(wide)
}
