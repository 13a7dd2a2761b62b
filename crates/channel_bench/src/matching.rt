//! Which frame that was sent a heard one is.
ghost use Rattle.std.specs.Prelude.{◌≡◌, ◌+◌, ◌<◌, ◌≤◌, ℕ, length, drop, position, option_map, count_by, nat_le};
ghost use Rattle.std.specs.Prelude.{IfSome};

use frame_merge::Candidate;
use tnc_base::Octets;

/// A frame whose sending has ended.
#[derive(Debug, Drop)]
pub struct SentAt {
    /// The frame without its check sequence.
    pub octets: Octets,
    /// Its true end: the first sample past the flag that follows it.
    pub end: u64,
}

impl SentAt {
    ghost use Rattle.channel_bench.specs.BenchSteps.{fits, is_match};

    /// The heard one has the same octets, and an end that fits.
    fn is_match(&self, blocks: bool, item: &Candidate) -> bool
        ensures { result ≡ is_match blocks item.now self.now }
    {
        self.octets.as_slice() == item.octets.as_slice() && self.fits(blocks, item.end)
    }

    /// A heard end is less than eight samples away. Where blocks are read it may be lower: a frame can be heard before its
    /// block has ended.
    fn fits(&self, blocks: bool, heard: u64) -> bool
        ensures { result ≡ fits blocks self.now.end heard }
    {
        if blocks {
            heard.saturating_sub(7) <= self.end
        } else {
            self.end.abs_diff(heard) < 8
        }
    }

    /// It has ended 16 samples before a mark.
    fn has_passed(&self, mark: u64) -> bool
        ensures { result ≡ nat_le (self.now.end + 16) mark }
    {
        mark >= 16 && self.end <= mark - 16
    }

    /// The first of these that a heard one matches.
    pub(crate) fn first_match(sent: &[SentAt], blocks: bool, item: &Candidate) -> Option<usize>
        ensures place { result ≡ position (is_match blocks item.now) sent.now }
        ensures within { IfSome result (λ place. place < length sent.now) }
    {
        sent.iter().position(|sent| sent.is_match(blocks, item))
    }

    /// How many of these have ended 16 samples before a mark.
    pub(crate) fn count_passed(sent: &[SentAt], mark: u64) -> usize
        ensures count { result ≡ count_by (λ sent. nat_le (sent.end + 16) mark) sent.now }
        ensures most { result ≤ length sent.now }
    {
        sent.iter().filter(|sent| sent.has_passed(mark)).count()
    }
}
