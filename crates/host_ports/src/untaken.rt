//! What came from a connection and is not taken yet.

use tnc_base::Octets;

/// Octets of a connection that the station has not taken yet.
#[derive(Debug, Drop)]
pub struct Untaken {
    /// The connection.
    pub id: u32,
    /// At most 17 octets.
    pub octets: Octets,
}
