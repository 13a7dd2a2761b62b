//! The states of a link.

/// Where a link stands (AX.25 2.2 section 6.3).
#[derive(Clone, Copy, Debug, PartialEq, Eq)]
pub enum LinkState {
    /// There is no link.
    Idle,
    /// SABM or SABME was sent, and its answer is awaited.
    Calling,
    /// The link is set up.
    Up,
    /// DISC was sent, and its answer is awaited.
    Releasing,
}
