//! What a report tells of a station's health.

/// What was counted since the last line of counts, and what is there now.
#[derive(Clone, Copy, Debug, PartialEq, Eq)]
pub struct Counts {
    /// How many ticks were made in all.
    pub ticks: u64,
    /// The greatest sample by its absolute value.
    pub peak: u16,
    /// How many samples were the least or the greatest that there is.
    pub clipped: u64,
    /// In how many ticks another station was heard.
    pub busy: u64,
    /// How many frames were heard.
    pub heard: u64,
    /// How many frames were sent to their end.
    pub sent: u64,
    /// How many frames found the transmit queue full.
    pub dropped: u64,
    /// How many connections of host programs are there.
    pub hosts: u64,
    /// How many links there are, in whatever state.
    pub links: u32,
}

/// A line of the report that tells of the station's health.
#[derive(Clone, Copy, Debug, PartialEq, Eq)]
pub enum HealthNote {
    /// Frames found the transmit queue full: so many in all.
    Dropped(u64),
    /// A thousand ticks of samples were all alike.
    DeadSound,
    /// The counts.
    Stats(Counts),
}

/// What is told after a tick.
#[derive(Clone, Copy)]
pub struct HealthNotes {
    pub dropped: Option<u64>,
    pub dead: bool,
    pub stats: Option<Counts>,
}
