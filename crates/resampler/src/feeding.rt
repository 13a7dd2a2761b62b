//! Blocks through a filter.

ghost use Rattle.std.specs.Prelude.{◌≡◌, ◌+◌, ◌<◌, ◌≤◌, ℤ, List, ◌++◌, length, take};
ghost use Rattle.std.specs.Option.{option_to_list};
ghost use Rattle.resampler.specs.Filtered.{settled, decimated_settled};
ghost use Rattle.resampler.specs.Held.{StandsFor, HasDecimated};

use crate::decimator::Decimator;
use crate::line::PART;
use crate::low_pass::LowPass;

/// Puts what a low-pass filter gives of a block at the front of `out`, and tells how many samples that is.
pub(crate) fn feed_low_pass(filter: &mut LowPass, block: &[i16], out: &mut [i16]) -> usize
    requires { length block.now ≤ length out.old }
    ensures fed { (x : List ℤ) → StandsFor filter.old x → StandsFor filter.new (x ++ block.now)
        × (settled (x ++ block.now) ≡ settled x ++ take result out.new) }
    ensures count { result ≤ length block.now }
    ensures room { length out.new ≡ length out.old }
{
    let mut count = 0;
    for sample in block {
        count = put(out, count, filter.push(*sample));
    }
    count
}

/// So of a decimator, part by part.
pub(crate) fn feed_decimator(filter: &mut Decimator, block: &[i16], out: &mut [i16]) -> usize
    requires { length block.now ≤ length out.old }
    ensures fed { (x : List ℤ) → HasDecimated filter.old x → HasDecimated filter.new (x ++ block.now)
        × (decimated_settled (x ++ block.now) ≡ decimated_settled x ++ take result out.new) }
    ensures count { result ≤ length block.now }
    ensures room { length out.new ≡ length out.old }
{
    let mut count = 0;
    for part in block.chunks(PART) {
        count += filter.feed_part(part, &mut out[count..]);
    }
    count
}

/// Puts the sample that is given, if there is one, after so many others, and tells how many they are then.
fn put(out: &mut [i16], count: usize, given: Option<i16>) -> usize
    requires { count < length out.old }
    ensures put { take result out.new ≡ take count out.old ++ option_to_list given }
    ensures most { result ≤ count + 1 }
    ensures room { length out.new ≡ length out.old }
{
    let Some(sample) = given else {
        return count;
    };
    out[count] = sample;
    count + 1
}
