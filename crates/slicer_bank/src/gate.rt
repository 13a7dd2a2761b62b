//! What is told as the job of a lane starts.

/// Told once as the job of each lane starts. A test holds lanes with it until others have started.
pub trait Gate: Sync {
    /// The job of a lane starts, on the thread that makes the call.
    fn begun(&self, lane: u8);
}

/// A gate that holds nobody.
#[derive(Clone, Copy, Debug, PartialEq, Eq)]
pub struct OpenGate;

impl Gate for OpenGate {
    fn begun(&self, _lane: u8) {}
}
