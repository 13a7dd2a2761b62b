//! How far from its true end a frame on short wave is heard.

use crate::tests::assertions::assert_equal;
use crate::tests::worked_signal::SHORTEST;
use clean_signal::TrueEnd;
use frame_merge::Candidate;
use hf_signal::hf_is_sent;
use std::alloc::Global;
use std::test::Fail;
use tnc_base::{Octets, OutOfMemory};

/// True if what is heard with these octets at a quarter and an offset is the frame that ends at sample 5184.
fn hears(alloc: Global, octets: &[u8], end: u64, offset: u8) -> Result<bool, OutOfMemory> {
    let sent = TrueEnd {
        end: 5184,
        octets: Octets::from_slice(alloc, &SHORTEST)?,
    };
    let item = Candidate {
        end,
        offset,
        octets: Octets::from_slice(alloc, octets)?,
    };
    Ok(hf_is_sent(std::slice::from_ref(&sent), &item))
}

// Sample 5184 ends quarter 1296 at offset 0; 29 samples before and after are quarter 1288 with 3 and quarter 1303 with
// 1.
#[test]
fn a_frame_is_heard_less_than_30_samples_from_its_true_end(rt: HostRuntime) -> Result<(), Fail> {
    let table = [
        (1296, 0, true),
        (1288, 3, true),
        (1288, 2, false),
        (1303, 1, true),
        (1303, 2, false),
        (1288, 31, true),
        (1294, 24, true),
    ];
    for (end, offset, is) in table {
        let hears = hears(rt.alloc(), &SHORTEST, end, offset)?;
        assert_equal(&rt, &(end, offset, hears), &(end, offset, is));
    }
    assert!(rt; !hears(rt.alloc(), &SHORTEST[..14], 1296, 0)?);
    Ok(())
}
