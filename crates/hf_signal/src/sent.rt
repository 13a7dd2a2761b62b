//! Whether a candidate is a frame that was sent.

ghost use Rattle.std.specs.Prelude.{◌≡◌};
ghost use Rattle.hf_modem.specs.Candidates.{end_sample};
ghost use Rattle.hf_signal.specs.Stray.{is_of, is_sent};

use clean_signal::TrueEnd;
use frame_merge::Candidate;

/// How far from its true end a frame is no more heard, in samples.
const NEAR: u128 = 30;

/// True if `item` is one of the frames that were sent, whose true ends are `ends`, in samples: it has the octets of
/// one, and the sample at which it ends is less than 30 before or after its true end. A candidate of which this is
/// false is stray.
pub fn hf_is_sent(ends: &[TrueEnd], item: &Candidate) -> bool
    ensures { result ≡ is_sent ends.now item.now }
{
    ends.iter().any(|sent| is_of(item, sent))
}

/// True if `item` is the frame that was sent.
fn is_of(item: &Candidate, sent: &TrueEnd) -> bool
    ensures { result ≡ is_of item.now sent.now }
{
    item.octets.as_slice() == sent.octets.as_slice()
        && end_sample(item).abs_diff(u128::from(sent.end)) < NEAR
}

/// The first sample after the last window of an item, whose end tells the quarter of it.
fn end_sample(item: &Candidate) -> u128
    ensures { result ≡ end_sample item.now }
{
    4 * u128::from(item.end) + u128::from(item.offset % 4)
}
