//! Whether a candidate at 48,000 samples a second is a frame that was sent.

ghost use Rattle.std.specs.Prelude.{◌≡◌, ◌+◌, ◌<◌, nat_lt, ◌&&◌, ℕ};
ghost use Rattle.wide_input.specs.Stray.{wide_place, wide_end, is_of_wide, is_sent_wide};

use crate::stream::STREAMS;
use crate::streams::OFFSETS;
use clean_signal::TrueEnd;
use frame_merge::Candidate;

/// A bit is forty samples of all streams, and the streams stand up to four apart.
const NEAR: u64 = 36;

/// True if `item` is one of the frames that were sent in the stream of a number, whose true ends there are `ends`: it
/// has the octets of one, and ends less than 36 samples of all streams before or after its true end. A candidate of
/// which this is false is stray.
pub fn is_sent_wide(number: u8, ends: &[TrueEnd], item: &Candidate) -> bool
    requires number { number < 5 }
    requires lane { item.now.offset < 40 }
    ensures { result ≡ is_sent_wide number ends.now item.now }
{
    ends.iter().any(|sent| {
        sent.octets.as_slice() == item.octets.as_slice() && is_near(number, item, sent.end)
    })
}

/// True if `item` ends near an end of the stream of a number.
fn is_near(number: u8, item: &Candidate, end: u64) -> bool
    requires number { number < 5 }
    requires lane { item.now.offset < 40 }
    ensures { result ≡ (nat_lt (wide_end item.now) (wide_place number end
        + 36) && nat_lt (wide_place number end) (wide_end item.now + 36)) }
{
    let apart = item.end.abs_diff(end);
    if apart > u64::from(OFFSETS) {
        return false;
    }
    let streams = STREAMS as u64;
    let (own, other) = (u64::from(item.offset / OFFSETS), u64::from(number));
    let (own, other) = if item.end < end {
        (own, streams * apart + other)
    } else {
        (streams * apart + own, other)
    };
    own.abs_diff(other) < NEAR
}
