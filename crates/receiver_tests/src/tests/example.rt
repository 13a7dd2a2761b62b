//! An example to read first: a frame becomes samples, and the samples give the frame.

use crate::tests::assertions::assert_equal;
use crate::tests::worked_signal::SHORTEST;
use afsk_modulator::transmission;
use slicer_bank::Decoder;
use std::test::Fail;
use tnc_base::Octets;

/// Two flags, a frame and a flag are 162 bits of 8 samples. The decoder gives a candidate as soon as a later sample shows
/// that no lane hears a better one, or at the end of the sound.
#[test]
fn a_frame_goes_over_the_air(rt: HostRuntime) -> Result<(), Fail> {
    let alloc = rt.alloc();
    let frame = Octets::from_slice(alloc, &SHORTEST)?;
    let samples = transmission(alloc, &[frame], 2, 1)?;
    assert!(rt; samples.len() == 1296);

    let mut decoder = Decoder::new(alloc)?;
    let mut heard = decoder.block(&samples)?;
    for candidate in decoder.finish()? {
        heard.push(candidate)?;
    }
    assert_equal(&rt, &heard.len(), &1);
    for candidate in &heard {
        assert_equal(&rt, &candidate.octets.as_slice(), &SHORTEST.as_slice());
    }
    Ok(())
}
