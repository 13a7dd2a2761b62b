//! A line: the last 31 samples, and after them a part of a block. Its windows are summed where they stand.

ghost use Rattle.std.specs.Prelude.{◌≡◌, ◌+◌, ◌*◌, ◌≤◌, ◌++◌, length, take};
ghost use Rattle.resampler.specs.Line.{each_fifth};

use crate::window::{sample_of_window, window_at};

/// The most samples of a block that a line has: so many that the 31 before them are seldom copied.
pub(crate) const PART: usize = 480;

/// The samples that a line has room for.
const LINE: usize = 511;

/// The line of a window and the part that follows it.
pub(crate) fn line_of(window: &[i16; 31], part: &[i16]) -> [i16; LINE]
    requires { length part.now ≤ 480 }
    ensures { take (31 + length part.now) result ≡ window.now ++ part.now }
{
    let mut line = [0; LINE];
    line[..31].copy_from_slice(window);
    line[31..31 + part.len()].copy_from_slice(part);
    line
}

/// Fills `out` with the filtered samples of each fifth window of a line, from one on.
pub(crate) fn filter_each_fifth(line: &[i16; LINE], first: usize, out: &mut [i16])
    requires { first + 5 * length out.old ≤ 485 }
    ensures { out.new ≡ each_fifth line.now first (length out.old) }
{
    for i in 0..out.len() {
        out[i] = sample_of_window(window_at(line, first + 5 * i));
    }
}
