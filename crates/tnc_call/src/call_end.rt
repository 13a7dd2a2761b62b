//! How a call ends.

/// How a call ends: by the first of these that comes.
#[derive(Clone, Copy, Debug, PartialEq, Eq)]
pub enum CallEnd {
    /// The connection was made and ended, and so many octets were printed.
    Done { got: usize },
    /// The input has more than 1,048,576 octets.
    TooLong,
    /// Memory was wanted and not given.
    Memory,
    /// A read of the input failed.
    ReadFault,
    /// A write to the output failed.
    WriteFault,
    /// The host could not be dialed.
    NoHost,
    /// The host did not register the call, or the remote station was not reached.
    Refused,
    /// The host left, or a send to it failed.
    HostLost,
    /// The host told a body of `len` octets, which are over 4096.
    Broken { len: u32 },
    /// So many polls were made, and the call is not over.
    GaveUp { polls: u32 },
}
