//! The numbers of the lanes, and what each reads.

ghost use Rattle.std.specs.Prelude.{◌≡◌, ◌<◌, ◌≤◌};
ghost use Rattle.sensitive_receiver.specs.Lanes.{delay_of};
ghost use Rattle.sensitive_receiver.specs.ListLanes.{first_slow};

use tone_tracking::Reach;

/// The first of the lanes that are added to one for each offset of a bit.
pub(crate) const FIRST: u8 = 8;

/// One past the last lane.
pub const LANES: u8 = 26;

/// How many places before the last one a lane reads.
pub fn delay_of(lane: u8) -> u8
    requires { lane < 26 }
    ensures delay { result ≡ delay_of lane }
    ensures bound { result ≤ 2 }
{
    if lane < 16 {
        0
    } else if lane < 19 {
        lane - 16
    } else if lane < 22 {
        lane - 19
    } else if lane < 23 {
        1
    } else {
        lane - 23
    }
}

/// The first of the three lanes on the slow clock of a list.
pub(crate) fn first_slow(reach: Reach) -> u8
    ensures lane { result ≡ first_slow reach }
    ensures bound { (16 ≤ result) × (result ≤ 23) }
{
    match reach {
        Reach::Alone => 23,
        Reach::Near => 16,
        Reach::Far => 19,
    }
}
