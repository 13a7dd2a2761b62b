//! Where polynomials are 0 among the powers that octets of a word of 255 octets stand at, and polynomials by where they
//! are 0. The flag at place p is that of power(p).

ghost use Rattle.std.specs.Prelude.{◌≡◌, ◌≢◌, ◌<◌, ◌≤◌, ◌==◌, ℕ, true, false, ◌∷◌, length};
ghost use Rattle.std.specs.Prelude.{slice_index_or, All};
ghost use Rattle.reed_solomon.specs.Erasures.{count_true};
ghost use Rattle.reed_solomon.specs.Values.{value_at};

use crate::code::MOST_CHECK_OCTETS;
use crate::field::power;
use crate::generator::add_root;
use crate::values::value_at;
use crate::words::WHOLE_LENGTH;
use arrayvec::ArrayVec;

// A flag for each octet of a word of 255 octets, at the place that counts the octets after it.
pub type Flags = [bool; WHOLE_LENGTH];

// At which powers a list of coefficients is 0.
pub fn roots(coefficients: &[u8]) -> Flags
    ensures roots { (p : ℕ) → p < 255 → slice_index_or result p false ≡ (value_at p coefficients.now == 0) }
    ensures size { length result ≡ 255 }
    ensures octets { All (λ x. x < 256) coefficients.now }
{
    let mut roots = [false; WHOLE_LENGTH];
    for p in 0..WHOLE_LENGTH {
        roots[p] = value_at(p, coefficients) == 0;
    }
    roots
}

// The coefficients, but the highest, which is 1, of the polynomial that is 0 at the flagged powers.
pub fn with_roots(flags: &Flags) -> ArrayVec<u8, MOST_CHECK_OCTETS>
    requires few { count_true flags.now ≤ 64 }
    ensures zero { (q : ℕ) → q < 255 → slice_index_or flags.now q false ≡ true → value_at q (1 ∷ result.items) ≡ 0 }
    ensures some { (q : ℕ) → q < 255 → slice_index_or flags.now q false ≡ false → value_at q (1 ∷ result.items) ≢ 0 }
    ensures count { length result.items ≡ count_true flags.now }
    ensures octets { All (λ x. x < 256) result.items }
{
    let mut rest = ArrayVec::new();
    for q in 0..WHOLE_LENGTH {
        if flags[q] {
            add_root(&mut rest, power(q));
        }
    }
    rest
}
