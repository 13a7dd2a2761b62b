//! The worked transmission at 48,000 samples a second, on one thread and on two.

use crate::tests::assertions::assert_equal;
use crate::tests::blocks::items_in_blocks;
use crate::tests::meeting::Meeting;
use crate::tests::worked_signal::{transmission, wide};
use clean_signal::TrueEnd;
use frame_merge::Candidate;
use std::test::Fail;
use tnc_base::Octets;
use wide_input::{WideBank, is_sent_wide};

// After three zeros the streams 3 and 4 have the transmission from their first sample on, and stream 3 is the lower
// one.
#[test]
fn a_transmission_of_repeated_samples_gives_one_item(rt: HostRuntime) -> Result<(), Fail> {
    let sent = transmission(&rt, rt.alloc())?;
    for (zeros, length, lane) in [(0, 2048, 6), (0, 333, 6), (3, 2048, 30), (3, 1, 30)] {
        let samples = wide(rt.alloc(), &sent, zeros)?;
        assert!(rt; samples.len() < 7000);
        let items = items_in_blocks::<WideBank, _>(&rt, rt.alloc(), &samples, length, None)?;
        assert_equal(
            &rt,
            &(zeros, length, items.as_slice()),
            &(zeros, length, [(1294, lane)].as_slice()),
        );
    }
    Ok(())
}

#[test]
fn lanes_of_two_streams_meet_on_two_threads(rt: HostRuntime) -> Result<(), Fail> {
    let sent = transmission(&rt, rt.alloc())?;
    let samples = wide(rt.alloc(), &sent, 0)?;
    assert!(rt; samples.len() == 6480);
    let meeting = Meeting::with_lane(39);
    let (first, _) = samples.split_at(2000);
    let items = items_in_blocks::<WideBank, _>(&rt, rt.alloc(), first, 2000, Some(&meeting))?;
    assert_equal(&rt, &items.len(), &0);
    assert_equal(&rt, &meeting.counts(), &[1, 1, 0]);
    let items = items_in_blocks::<WideBank, _>(&rt, rt.alloc(), &samples, 2048, Some(&meeting))?;
    assert_equal(&rt, &items.as_slice(), &[(1294, 6)].as_slice());
    Ok(())
}

// A frame that ends at sample 1294 of stream 1: at sample 6471 of all.
#[test]
fn a_candidate_less_than_36_samples_from_its_true_end_is_sent(rt: HostRuntime) -> Result<(), Fail> {
    let sent = TrueEnd {
        end: 1294,
        octets: Octets::from_slice(rt.alloc(), b"frame")?,
    };
    for (end, stream, is) in [
        (1294, 4, true),
        (1301, 1, true),
        (1301, 2, false),
        (1287, 1, true),
        (1287, 0, false),
    ] {
        let item = Candidate {
            end,
            offset: 8 * stream,
            octets: Octets::from_slice(rt.alloc(), b"frame")?,
        };
        let hears = is_sent_wide(1, std::slice::from_ref(&sent), &item);
        assert_equal(&rt, &(end, stream, hears), &(end, stream, is));
    }
    Ok(())
}
