//! Where frames are heard.

use crate::tests::assertions::assert_equal;
use crate::tests::worked_signal::SHORTEST;
use frame_merge::Candidate;
use std::process::Abort;
use tnc_base::OutOfMemory;

/// Notes where candidates end, and the lane of each. All of them are the shortest frame.
pub(crate) fn note<R: Abort>(
    rt: &R,
    places: &mut Vec<(u64, u8)>,
    candidates: Vec<Candidate>,
) -> Result<(), OutOfMemory> {
    for item in candidates {
        assert_equal(rt, &item.octets.as_slice(), &SHORTEST.as_slice());
        places.push((item.end, item.offset))?;
    }
    Ok(())
}
