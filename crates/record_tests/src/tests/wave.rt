//! A WAV file by the octets of its format.
use std::alloc::Global;
use tnc_base::OutOfMemory;

/// The head of a file of so many samples, and their octets.
pub(super) fn wave(alloc: Global, samples: &[i16]) -> Result<Vec<u8>, OutOfMemory> {
    let size = u32::try_from(samples.len()).unwrap_or(0).wrapping_mul(2);
    let mut file = b"RIFF".to_vec(alloc)?;
    file.extend_from_slice(&size.wrapping_add(36).to_le_bytes())?;
    file.extend_from_slice(
        b"WAVEfmt \x10\0\0\0\x01\0\x01\0\x80\x25\0\0\x00\x4b\0\0\x02\0\x10\0data",
    )?;
    file.extend_from_slice(&size.to_le_bytes())?;
    for sample in samples {
        file.extend_from_slice(&sample.to_le_bytes())?;
    }
    Ok(file)
}
