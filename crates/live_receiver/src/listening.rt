//! How a live station listens.

ghost use Rattle.std.specs.Prelude.{◌≡◌};
ghost use Rattle.live_receiver.specs.Listening.{readers_wanted};

/// How a live station listens.
#[derive(Clone, Copy, PartialEq, Eq, Debug)]
pub enum Listening {
    /// For Bell 202 at 1200 bits a second, with eight lanes or, if it is sensitive, with the added ones, too.
    Bell202 { sensitive: bool },
    /// For short wave at 300 bits a second, with 32 lanes or, if it is sensitive, with the added ones, too.
    ShortWave { sensitive: bool },
    /// For Bell 202 with eight lanes or, if it is sensitive, with all 26, which read blocks of FX.25, too.
    Fx25 { sensitive: bool },
}

/// The readers that a receiver wants: one for each of the eight lanes of Bell 202 and one more if the added lanes listen,
/// or one for all lanes of short wave, as for all that read blocks.
pub fn readers_wanted(listening: Listening) -> u8
    ensures { result ≡ readers_wanted listening }
{
    match listening {
        Listening::Bell202 { sensitive } => ring_receiver::readers_wanted(sensitive),
        Listening::ShortWave { .. } | Listening::Fx25 { .. } => 1,
    }
}
