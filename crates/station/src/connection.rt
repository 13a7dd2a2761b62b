//! The connections of host programs.

use agwpe_port::AgwIn;
use kiss_port::KissHostIn;

/// What reads the octets of a connection.
#[derive(Drop)]
pub enum Reader {
    /// Of KISS.
    KissReader(KissHostIn),
    /// Of AGWPE.
    AgwReader(AgwIn),
}

/// A connection that is there.
#[derive(Drop)]
pub struct Connection {
    /// Its id.
    pub id: u32,
    /// Whether it is sent each frame that is heard.
    pub raw: bool,
    /// Whether it is shown each frame that is heard and sent.
    pub monitors: bool,
    /// How many ticks the station had made when octets came from it last, 0 if none have.
    pub came: u64,
    /// What has read its octets so far.
    pub reader: Reader,
}
