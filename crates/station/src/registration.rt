//! The calls that host programs have registered.

use ax25_address::Call;

/// A call, and the connection that registered it.
#[derive(Clone, Copy, Debug)]
pub struct Registration {
    /// The call.
    pub call: Call,
    /// The connection.
    pub id: u32,
}
