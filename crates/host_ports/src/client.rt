//! A connection that is there.

use crate::outgoing::Outgoing;

/// A connection, and what waits to be sent to it.
#[derive(Drop)]
pub struct Client {
    /// The connection.
    pub id: u32,
    /// The pieces that wait.
    pub waiting: Outgoing,
}
