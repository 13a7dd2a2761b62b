//! Lanes that run ahead of the others.
//!
//! Of 64 samples in a row each lane has eight windows. With nearly all of them nothing ends, and then a lane takes the eight
//! at once, before the other lanes have taken theirs. Only the lanes that wait have to take the samples in turn, so all
//! that is heard comes in the order of its ends.
ghost use Rattle.std.specs.Prelude.{◌≡◌, ◌+◌, ◌%◌, ◌<◌, ◌≤◌, ◌^◌, ℕ, ℤ, List, ◌++◌, length, take, drop, true, false};
ghost use Rattle.std.specs.Prelude.{slice_index_or};
ghost use Rattle.slicer_bank.specs.Held.{last_seven};
ghost use Rattle.fx25_receiver.specs.declared.heard.Heard.{Heard};
ghost use Rattle.fx25_receiver.specs.Ahead.{AreAhead};
ghost use Rattle.fx25_receiver.specs.Held.{AreAfter};

use crate::lane::Lane;

/// Gives each lane its windows of 64 samples that follow seven, if it can take them at once, and says of each whether it
/// has still to take them.
pub(crate) fn run_ahead(lanes: &mut Vec<Lane>, position: u64, stretch: &[i16; 71]) -> [bool; 8]
    requires lanes { length lanes.old.items ≡ 8 }
    requires seven { 7 ≤ position }
    requires room { position < 2 ^ 48 }
    ensures lanes { length lanes.new.items ≡ 8 }
    ensures ahead { (kept : List Heard) (x : List ℤ) (given : List Heard) → last_seven x ≡ take 7 stretch.now
        → AreAfter lanes.old.items position kept x given
        → AreAhead lanes.new.items position kept result x (x ++ drop 7 stretch.now) given }
{
    let mut waiting = [true; 8];
    for offset in 0..8 {
        let first = first_of(position, offset);
        let lane = &mut lanes[offset];
        let ahead = lane.push_windows(windows_from(stretch, first));
        waiting[offset] = !ahead;
    }
    waiting
}

/// How many samples come before the first window of an offset that ends past a position, if the seven before that position
/// come first.
fn first_of(position: u64, offset: usize) -> usize
    requires room { position < 2 ^ 48 }
    requires small { offset < 8 }
    ensures small { result < 8 }
    ensures place { offset ≡ (position + 1 + result) % 8 }
{
    (offset + 7 - (position % 8) as usize) % 8
}

/// The samples of eight windows in a row, of which so many come before.
fn windows_from(stretch: &[i16; 71], first: usize) -> &[i16; 64]
    requires { first < 8 }
    ensures { result.now ≡ take 64 (drop first stretch.now) }
{
    stretch[first..].first_chunk().unwrap()
}

/// Whether some lane waits.
pub(crate) fn is_some_waiting(waiting: &[bool; 8]) -> bool
    ensures { result ≡ false → (offset : ℕ) → offset < 8 → slice_index_or waiting.now offset true ≡ false }
{
    for waits in waiting {
        if *waits {
            return true;
        }
    }
    false
}
