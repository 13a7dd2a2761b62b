//! What a number on the air says of a true number.

ghost use Rattle.std.specs.Prelude.{◌≡◌, ℕ, ◌+◌, ◌-◌, ◌%◌, ◌<◌, ◌≤◌};
ghost use Rattle.selective_reject.specs.Numbers.{ahead};

/// A number on the air is the true number modulo the modulus. If the true number is less than once round ahead of
/// another, its distance is what is counted; if it is less than once round after, the rest of the round is.
pub fn numbers_on_the_air()
    ensures at_or_ahead { (modulus from number : ℕ) → from ≤ number → number < from + modulus
        → ahead modulus from (number % modulus) ≡ number - from }
    ensures following { (modulus from number : ℕ) → number < from → from < number + modulus
        → ahead modulus from (number % modulus) ≡ number + modulus - from }
{}
