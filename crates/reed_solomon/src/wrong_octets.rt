//! The wrong octets of a word of 255 octets, by its syndromes and the places where it may be wrong.
//!
//! Each octet has a point: power(p) if p others follow it. The product of the differences to the points of all these
//! places but one is 0 at all of them but one, so its sum with the syndromes is the one wrong octet's share.

ghost use Rattle.std.specs.Prelude.{◌≡◌, ◌≢◌, ◌+◌, ◌<◌, ◌≤◌, ℕ, true, false, List, length};
ghost use Rattle.std.specs.Prelude.{slice_index_or, All};
ghost use Rattle.reed_solomon.specs.Erasures.{count_true};
ghost use Rattle.reed_solomon.specs.Kernel.{IsWrong, octet_before, values_down};

use crate::field::{inverse, product, times_power};
use crate::generator::with_highest;
use crate::kernel::dot;
use crate::places::wrong_places;
use crate::roots::{Flags, with_roots};
use crate::values::value_at;
use crate::words::WHOLE_LENGTH;

// Writes the codeword that differs, outside the unknown places, in at most half as many octets as there are syndromes
// beyond one for each unknown place, if there is one.
pub fn correct(first_root: u8, syndromes: &[u8], unknown: &Flags, word: &mut [u8])
    requires first_root { first_root < 255 }
    requires count { length syndromes.now ≤ 64 }
    requires few { count_true unknown.now ≤ length syndromes.now }
    requires size { length word.old ≡ 255 }
    requires octets { All (λ x. x < 256) word.old }
    requires syndromes { syndromes.now ≡ values_down word.old first_root (length syndromes.now) }
    ensures { (v : List ℕ) → IsWrong first_root (length syndromes.now) unknown.now word.old v → word.new ≡ v }
{
    let places = wrong_places(unknown, syndromes);
    for p in 0..WHOLE_LENGTH {
        if places[p] {
            word[WHOLE_LENGTH - 1 - p] ^= error_at(p, &places, syndromes, first_root);
        }
    }
}

// By how much the octet is wrong that p others follow, if all wrong octets are at the places.
fn error_at(p: usize, places: &Flags, syndromes: &[u8], first_root: u8) -> u8
    requires first_root { first_root < 255 }
    requires place { p < 255 }
    requires flagged { slice_index_or places.now p false ≡ true }
    requires few { count_true places.now ≤ length syndromes.now }
    requires most { length syndromes.now ≤ 64 }
    ensures { (errors : List ℕ) → All (λ x. x < 256) errors → length errors ≡ 255
        → syndromes.now ≡ values_down errors first_root (length syndromes.now)
        → ((q : ℕ) → q < 255 → octet_before q errors ≢ 0 → slice_index_or places.now q false ≡ true)
        → result ≡ octet_before p errors }
{
    let others = with_roots(&without(places, p));
    let all = with_highest(others.as_slice());
    let sum = dot(all.as_slice(), &syndromes[syndromes.len() - all.len()..]);
    let share = times_power((255 - first_root as usize) * p, sum);
    product(inverse(value_at(p, all.as_slice())), share)
}

// The same flags but one, which is set.
fn without(flags: &Flags, p: usize) -> Flags
    requires place { p < 255 }
    requires flagged { slice_index_or flags.now p false ≡ true }
    ensures here { slice_index_or result p false ≡ false }
    ensures elsewhere { (q : ℕ) → q ≢ p → slice_index_or result q false ≡ slice_index_or flags.now q false }
    ensures count { count_true result + 1 ≡ count_true flags.now }
{
    let mut others = *flags;
    others[p] = false;
    others
}
