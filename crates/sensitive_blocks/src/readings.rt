//! Which lanes read a bit that ends with a sample.
ghost use Rattle.std.specs.Prelude.{◌≡◌, ◌<◌, ◌≤◌, ℤ, List, length};
ghost use Rattle.sensitive_receiver.specs.Lanes.{list_of};
ghost use Rattle.sensitive_blocks.specs.Bits.{reads};
ghost use Rattle.sensitive_blocks.specs.Held.{AreKept};

use sensitive_receiver::delay_of;
use tone_tracking::Reach;

/// The first of the lanes that are added to one for each offset of a bit.
pub(crate) const FIRST: u8 = 8;

/// One past the last lane.
pub(crate) const LANES: u8 = 26;

/// What is known of a place: that its tones are decided, and whether the clocks say that a bit is read there.
#[derive(Clone, Copy)]
pub(crate) struct Readings {
    pub(crate) decided: bool,
    pub(crate) slow_near: bool,
    pub(crate) slow_far: bool,
    pub(crate) fast_near: bool,
    pub(crate) slow_alone: bool,
}

impl Readings {
    /// What is known of a place that is not decided.
    pub(crate) const NONE: Readings = Readings {
        decided: false,
        slow_near: false,
        slow_far: false,
        fast_near: false,
        slow_alone: false,
    };
}

/// Whether a lane reads a bit that ends with a sample, `kept` being what is known of the places that the lanes with a delay
/// of 0, 1 and 2 read it at.
pub(crate) fn reads(kept: &[Readings; 3], lane: u8, end: u64) -> bool
    requires { lane < 26 }
    ensures { (x : List ℤ) → AreKept kept.now end x → end ≤ length x → result ≡ reads x lane end }
{
    if lane < FIRST {
        return end >= 8 && end % 8 == u64::from(lane);
    }
    let told = kept[usize::from(delay_of(lane))];
    if lane < 16 {
        told.decided && end % 8 == u64::from(lane - FIRST)
    } else if lane < 19 {
        told.slow_near
    } else if lane < 22 {
        told.slow_far
    } else if lane < 23 {
        told.fast_near
    } else {
        told.slow_alone
    }
}

/// The list that an added lane reads.
pub(crate) fn list_of(lane: u8) -> Reach
    ensures { result ≡ list_of lane }
{
    if lane < 16 {
        Reach::Far
    } else if lane < 19 {
        Reach::Near
    } else if lane < 22 {
        Reach::Far
    } else if lane < 23 {
        Reach::Near
    } else {
        Reach::Alone
    }
}
