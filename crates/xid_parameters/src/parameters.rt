//! The parameters of a link, as a station has them and as it is told them.
use ax25_frames::Modulus;
use selective_reject::Mode;

/// Whether a station hears while it sends.
#[derive(Clone, Copy, Debug, PartialEq, Eq)]
pub enum Duplex {
    /// It does not: one channel for both ways.
    Half,
    /// It does.
    Full,
}

/// All parameters of a link at one station.
#[derive(Clone, Copy, Debug, PartialEq, Eq)]
pub struct LinkParameters {
    /// Whether the station hears while it sends.
    pub duplex: Duplex,
    /// By what it asks for lost I frames. A station that asks by SREJ knows REJ too.
    pub mode: Mode,
    /// The most that it counts with.
    pub modulus: Modulus,
    /// N1: the most octets of information of an I frame that it takes.
    pub info_octets: u16,
    /// k: how many I frames it takes before it acknowledges one.
    pub window: u8,
    /// T1, the acknowledgement timer, in milliseconds.
    pub t1: u16,
    /// N2: how often a frame is sent again.
    pub retries: u8,
}

/// What a station tells of its parameters; those that it does not tell, or not in the length that they have, are
/// `None`.
#[derive(Clone, Copy, Debug, PartialEq, Eq)]
pub struct ToldParameters {
    /// Whether it hears while it sends.
    pub duplex: Option<Duplex>,
    /// By what it asks for lost I frames.
    pub mode: Option<Mode>,
    /// The most that it counts with.
    pub modulus: Option<Modulus>,
    /// N1, in octets; a part of an octet does not count.
    pub info_octets: Option<u32>,
    /// k, from 1 to 127.
    pub window: Option<u8>,
    /// T1, in milliseconds.
    pub t1: Option<u32>,
    /// N2.
    pub retries: Option<u8>,
}
