//! Signals in which the eight lanes of a bank hear nothing, and the added lanes of a sensitive receiver do.

use std::alloc::{AllocError, Global};

/// How many samples of silence follow a transmission.
pub(crate) const SILENCE: usize = 64;

/// The samples at half their level, each with a pseudorandom number from -6000 to 6000, and silence with such noise.
pub(crate) fn in_noise(alloc: Global, sent: &[i16]) -> Result<Vec<i16>, AllocError> {
    let mut samples = Vec::from_slice(alloc, sent)?;
    samples.extend_from_slice(&[0; SILENCE])?;
    let mut state = 7u32;
    for sample in &mut samples {
        state = state.wrapping_mul(1103515245).wrapping_add(12345);
        let noise = (state >> 16) % 12001;
        *sample = *sample / 2 + (noise as i16 - 6000);
    }
    Ok(samples)
}

/// The samples with each hundredth one twice, and silence: the clock of their sender is a hundredth slow.
pub(crate) fn slow(alloc: Global, sent: &[i16]) -> Result<Vec<i16>, AllocError> {
    let mut samples = Vec::new(alloc);
    for hundred in sent.chunks(100) {
        samples.extend_from_slice(hundred)?;
        if hundred.len() == 100 {
            samples.push(hundred[99])?;
        }
    }
    samples.extend_from_slice(&[0; SILENCE])?;
    Ok(samples)
}
