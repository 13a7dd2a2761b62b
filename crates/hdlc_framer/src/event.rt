//! What a bit of a line of frames ends.

/// What a bit ends.
#[derive(Clone, Copy, PartialEq, Eq, Debug, Drop)]
pub enum Event {
    /// Neither of the others.
    None,
    /// A flag that ends no frame.
    Flag,
    /// The seventh 1 in a row, which gives up what came since the last flag.
    Abort,
    /// A flag that ends a frame. It may open the next one, too.
    Frame,
}
