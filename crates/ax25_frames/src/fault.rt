//! Why octets are no frame (AX.25 2.2 section 3).
use ax25_address::AddrFault;
use thiserror::Error;

/// The first fault of octets that are no frame, in the order of address, control field, PID and what
/// follows. Places are counted from 0.
#[derive(Clone, Copy, Debug, PartialEq, Eq, Error)]
pub enum FrameFault {
    /// The octets begin with no path (section 3.12).
    #[error("{0}")]
    Address(AddrFault),
    /// The octets end before or inside the control field; `at` is their count.
    #[error("no control at {at}")]
    NoControl { at: usize },
    /// An I or UI frame ends after its control field, without a PID (section 3.4); `at` is the count of octets.
    #[error("no pid at {at}")]
    NoPid { at: usize },
    /// The octet begins no control field (section 4.3).
    #[error("unknown control {octet:02x}")]
    UnknownControl { octet: u8 },
    /// An I frame has `len` octets of information, more than N1, which is 256.
    #[error("info too long {len}")]
    InfoTooLong { len: usize },
    /// A frame that has no information has some, from the octet at `at` on.
    #[error("stray info at {at}")]
    StrayInfo { at: usize },
    /// Memory for the information was not given.
    #[error("out of memory")]
    Memory,
}
