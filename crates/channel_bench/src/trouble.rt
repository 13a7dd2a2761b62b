//! What ends a run before it is over.

use tnc_base::Octets;

/// What ends a run before it is over.
#[derive(Debug, Drop)]
pub enum Trouble {
    /// A frame of these octets was heard that matches none that was sent.
    Stray { octets: Octets },
    /// The frame of this number found no quiet channel.
    Unquiet { index: u64 },
}
