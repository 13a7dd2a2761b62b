//! The words of a call.

use arrayvec::ArrayVec;
use ax25_address::Call;

/// The words of a call.
#[derive(Drop)]
pub struct CallWords {
    /// The port of the host, on 127.0.0.1.
    pub agw: u16,
    /// The own call.
    pub own: Call,
    /// The remote call.
    pub remote: Call,
    /// The repeaters by way of which the remote station is called.
    pub via: ArrayVec<Call, 8>,
    /// After how many printed octets the caller disconnects.
    pub expect: u32,
    /// After how many polls, of up to 100 ms each, the caller gives up.
    pub polls: u32,
}
