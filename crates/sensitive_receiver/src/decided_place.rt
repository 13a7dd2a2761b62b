//! What is known of the place that was decided last.

/// A place, and whether the slow clock on its list of tones says that a bit is read there.
#[derive(Clone, Copy, PartialEq, Eq, Debug)]
pub(crate) struct DecidedPlace {
    pub(crate) place: u64,
    pub(crate) reads: bool,
}
