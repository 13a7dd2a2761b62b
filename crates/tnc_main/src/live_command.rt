//! The commands that need more than streams.
use tnc_words::{CallOptions, RecordOptions, ServeOptions};

/// A command that works with ports, or with a thread that may wait for the input.
#[derive(Clone, Debug, PartialEq, Eq, Drop)]
pub enum LiveCommand {
    /// A station on the air, with ports for host programs.
    Serve(ServeOptions),
    /// Samples in, their sound and the frames in it out.
    Record(RecordOptions),
    /// One connected call through a station that others run.
    Call(CallOptions),
}
