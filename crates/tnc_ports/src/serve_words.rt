//! What a live station is asked for.

use host_ports::Listen;
use keying::Words;
use live_receiver::Listening;
use slicer_bank::Detection;
use sound_rate::Rate;
use station::Config;

/// How the transmitter is keyed.
#[derive(Clone, Copy, Debug)]
pub struct KeyWords {
    /// The port of rigctld on 127.0.0.1.
    pub port: u16,
    /// The tail, and the command that keys.
    pub words: Words,
}

/// The ports, the station and the report of a live station.
#[derive(Clone, Copy, Debug)]
pub struct ServeWords {
    /// The ports that are opened.
    pub listen: Listen,
    /// The seed of the draws with which the station takes the channel.
    pub seed: u64,
    /// How the station's links work, and for which call it repeats.
    pub config: Config,
    /// By what a lane finds the channel busy.
    pub dcd: Detection,
    /// Whether each frame that is heard or sent has a line in the report.
    pub monitor: bool,
    /// How the station listens: by which lanes, and for which modem.
    pub listening: Listening,
    /// How many samples a second its input and its output have.
    pub rate: Rate,
    /// How the transmitter is keyed, if it is.
    pub key: Option<KeyWords>,
    /// After how many seconds each the report has a line of counts, if it has.
    pub stats: Option<u32>,
}
