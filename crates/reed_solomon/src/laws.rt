//! Laws on the definitions. A law is the contract of a function that does nothing.

ghost use Rattle.std.specs.Prelude.{◌≡◌, ◌+◌, ◌++◌, ◌<◌, ◌≤◌, ℕ, List, length, All};
ghost use Rattle.reed_solomon.specs.declared.code.Code.{Code};
ghost use Rattle.reed_solomon.specs.Codeword.{IsCodeword, IsWithinReach};
ghost use Rattle.reed_solomon.specs.Distance.{distance};

/// Two codewords of one length that differ in at most as many octets as there are check octets are one.
pub fn codewords_are_apart()
    ensures { (code : Code) → (u : List ℕ) → (v : List ℕ) → All (λ x. x < 256) u → All (λ x. x < 256) v
        → length u ≡ length v → code.check_count ≤ length u → length u ≤ 255
        → IsCodeword code u → IsCodeword code v → distance u v ≤ code.check_count → u ≡ v }
{}

/// At most one codeword differs from a word in at most half as many octets as there are check octets.
pub fn one_codeword_is_within_reach()
    ensures { (code : Code) → (word : List ℕ) → (u : List ℕ) → (v : List ℕ)
        → code.check_count ≤ length word → length word ≤ 255
        → IsWithinReach code word u → IsWithinReach code word v → u ≡ v }
{}

/// Data have one list of check octets.
pub fn check_octets_are_one()
    ensures { (code : Code) → (octets : List ℕ) → (check : List ℕ) → (other : List ℕ)
        → All (λ x. x < 256) octets → All (λ x. x < 256) check → All (λ x. x < 256) other
        → length check ≡ code.check_count → length other ≡ code.check_count
        → length octets + code.check_count ≤ 255
        → IsCodeword code (octets ++ check) → IsCodeword code (octets ++ other) → check ≡ other }
{}
