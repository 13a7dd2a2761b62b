//! The true end of a frame that was sent, and whether a candidate is that frame.

ghost use Rattle.std.specs.Prelude.{◌≡◌};
ghost use Rattle.clean_signal.specs.Stray.{is_of, is_sent};

use frame_merge::Candidate;
use tnc_base::Octets;

/// A frame that was sent, and where it ends.
#[derive(Drop)]
pub struct TrueEnd {
    /// The first sample after the last window of the flag that follows the frame, counted from 0.
    pub end: u64,
    /// The octets of the frame, without its frame check sequence.
    pub octets: Octets,
}

/// A window is eight samples, one bit at 1200 bits and 9600 samples a second.
const WINDOW: u64 = 8;

/// True if `item` is one of the frames that were sent, whose true ends are `ends`: it has the octets of one, and ends
/// less than eight samples before or after its true end. A candidate of which this is false is stray.
pub fn is_sent(ends: &[TrueEnd], item: &Candidate) -> bool
    ensures { result ≡ is_sent ends.now item.now }
{
    ends.iter().any(|sent| is_of(item, sent))
}

/// True if `item` is the frame that was sent.
fn is_of(item: &Candidate, sent: &TrueEnd) -> bool
    ensures { result ≡ is_of item.now sent.now }
{
    item.octets.as_slice() == sent.octets.as_slice() && item.end.abs_diff(sent.end) < WINDOW
}
