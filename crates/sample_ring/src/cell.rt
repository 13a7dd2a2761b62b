//! The word of a cell: the lap in the upper 48 bits, the sample in the lower 16.

ghost use Rattle.std.specs.Prelude.{◌≡◌, ℕ, ◌+◌, ◌-◌, ◌^◌, ◌<◌};
ghost use Rattle.sample_ring.specs.Cells.{lap_of, sample_of, word_of};

/// The word that tells the sample of a position.
pub(crate) fn word_at(position: u64, sample: i16) -> u64
    requires { position < 2 ^ 48 - 1 }
    ensures word { result ≡ word_of position sample }
    ensures lap { lap_of result ≡ position + 1 }
    ensures sample { sample_of result ≡ sample }
{
    (position + 1) * 65536 + sample.cast_unsigned() as u64
}

/// 1 more than the position whose sample a word tells, and 0 if it tells none.
pub(crate) fn lap_in(word: u64) -> u64
    ensures { result ≡ lap_of word }
{
    word / 65536
}

/// The sample that a word tells.
pub(crate) fn sample_in(word: u64) -> i16
    ensures { result ≡ sample_of word }
{
    ((word % 65536) as u16).cast_signed()
}
