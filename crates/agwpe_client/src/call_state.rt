//! How far a call has come.

/// How far a call has come. In the last three states it is over.
#[derive(Clone, Copy, Debug, PartialEq, Eq)]
pub enum CallState {
    /// The host is asked to register the own call.
    Asking,
    /// The host is asked to call the remote station.
    Calling,
    /// The two stations are connected.
    Up,
    /// They were connected, and the connection ended.
    Done,
    /// The host did not register the call, or the remote station was not reached.
    Refused,
    /// The host told a body of `len` octets, which are over 4096.
    Broken { len: u32 },
}
