//! The octets of a sample.

ghost use Rattle.std.specs.Prelude.{◌≡◌};
ghost use Rattle.wav_file.specs.Samples.{sample_of};

/// The sample of 16-bit PCM that two octets are, the low one first.
#[tactic(auto, unfolding(crate::specs::Samples::sample_of))]
#[inline(always)]
pub fn sample_of(low: u8, high: u8) -> i16
    ensures { result ≡ sample_of low high }
{
    i16::from_le_bytes([low, high])
}
