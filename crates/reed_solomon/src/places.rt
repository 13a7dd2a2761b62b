//! Where a word of 255 octets may be wrong: at its unknown octets, and wherever else the kernel of its syndromes tells.
//!
//! The polynomial that is 0 at the points of the unknown octets scales the word: each octet is multiplied by the value at
//! its point. The scaled word is right at the unknown places, whatever stands there, and its syndromes are sums of those
//! of the word. There are fewer of them, by one for each unknown octet.

ghost use Rattle.std.specs.Prelude.{◌≡◌, ◌≢◌, ◌+◌, ◌-◌, ◌*◌, ◌/◌, ◌<◌, ◌≤◌, ℕ, true, false, List, length};
ghost use Rattle.std.specs.Prelude.{slice_index_or, All};
ghost use Rattle.reed_solomon.specs.Erasures.{count_true};
ghost use Rattle.reed_solomon.specs.Kernel.{octet_before, scaled, values_down, weight_outside};

use crate::code::MOST_CHECK_OCTETS;
use crate::generator::with_highest;
use crate::kernel::{dot, kernel};
use crate::roots::{Flags, roots, with_roots};
use crate::words::WHOLE_LENGTH;
use arrayvec::ArrayVec;

// The places of the unknown octets, and those of the other wrong ones, if they are few enough.
pub fn wrong_places(unknown: &Flags, syndromes: &[u8]) -> Flags
    requires most { length syndromes.now ≤ 64 }
    requires few { count_true unknown.now ≤ length syndromes.now }
    ensures few { count_true result ≤ length syndromes.now }
    ensures size { length result ≡ 255 }
    ensures wrong { (first : ℕ) → (errors : List ℕ) → All (λ x. x < 256) errors → length errors ≡ 255
        → syndromes.now ≡ values_down errors first (length syndromes.now)
        → count_true unknown.now + 2 * weight_outside unknown.now errors ≤ length syndromes.now
        → (q : ℕ) → q < 255 → octet_before q errors ≢ 0 → slice_index_or result q false ≡ true }
{
    let rest = with_roots(unknown);
    let factors = with_highest(rest.as_slice());
    let left = scaled_syndromes(factors.as_slice(), syndromes);
    let coefficients = kernel(left.as_slice());
    let roots = roots(&coefficients[..left.len() / 2 + 1]);
    united(&roots, unknown)
}

// The syndromes of the word scaled by a polynomial, an even number of them.
fn scaled_syndromes(factors: &[u8], syndromes: &[u8]) -> ArrayVec<u8, MOST_CHECK_OCTETS>
    requires some { 1 ≤ length factors.now }
    requires few { length factors.now ≤ length syndromes.now + 1 }
    requires most { length syndromes.now ≤ 64 }
    ensures values { (first : ℕ) → (errors : List ℕ) → All (λ x. x < 256) errors
        → syndromes.now ≡ values_down errors first (length syndromes.now)
        → result.items ≡ values_down (scaled factors.now errors) first (length result.items) }
    ensures count { length result.items ≡ 2 * ((length syndromes.now + 1 - length factors.now) / 2) }
{
    let whole = syndromes.len() + 1 - factors.len();
    let count = 2 * (whole / 2);
    let mut scaled = ArrayVec::new();
    for k in 0..count {
        let start = whole - count + k;
        scaled.push(dot(factors, &syndromes[start..start + factors.len()]));
    }
    scaled
}

// The places that are flagged in one list or the other.
fn united(flags: &Flags, others: &Flags) -> Flags
    ensures first { (q : ℕ) → q < 255 → slice_index_or flags.now q false ≡ true → slice_index_or result q false ≡ true }
    ensures second { (q : ℕ) → q < 255 → slice_index_or others.now q false ≡ true
        → slice_index_or result q false ≡ true }
    ensures count { count_true result ≤ count_true flags.now + count_true others.now }
    ensures size { length result ≡ 255 }
{
    let mut united = *flags;
    for q in 0..WHOLE_LENGTH {
        if others[q] {
            united[q] = true;
        }
    }
    united
}
