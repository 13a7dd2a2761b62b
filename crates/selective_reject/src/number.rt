//! Sequence numbers on the air.

ghost use Rattle.std.specs.Prelude.{◌≡◌, ◌<◌};
ghost use Rattle.selective_reject.specs.Numbers.{IsModulus, ahead};

/// How far `number` lies ahead of `from`, counted in numbers of the modulus.
pub(crate) fn ahead(modulus: u8, from: u8, number: u8) -> u8
    requires modulus { IsModulus modulus }
    requires number { number < modulus }
    ensures value { result ≡ ahead modulus from number }
    ensures below { result < modulus }
{
    (number + modulus - from % modulus) % modulus
}
