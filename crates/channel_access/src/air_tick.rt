//! What one tick sends.

use tnc_base::Octets;

/// The samples of a tick.
pub(crate) const SAMPLES: usize = 96;

/// A tick of the channel, 10 ms.
#[derive(Debug, Drop)]
pub struct AirTick {
    /// What is sent, 9600 samples a second; zeros if nothing is.
    pub samples: [i16; SAMPLES],
    /// Whether a transmission began with this tick.
    pub began: bool,
    /// The frame that was sent, if the flag after one ended in this tick.
    pub sent: Option<Sent>,
}

/// A frame that was sent, with the flag after it. It waits no longer.
#[derive(Debug, Drop)]
pub struct Sent {
    /// The frame without its check sequence.
    pub octets: Octets,
    /// How many samples of the tick had come when that flag ended.
    pub after: u8,
}
