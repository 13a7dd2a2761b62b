//! The lists of tones, by how far each sums windows in phase.

/// How many windows are summed in phase to decide one.
#[derive(Clone, Copy, PartialEq, Eq, Debug)]
pub enum Reach {
    /// One: this one alone.
    Alone,
    /// Three: the last one as it was decided, this one, and the next one with either tone.
    Near,
    /// All that were decided, each with three quarters of the weight of the one after it, this one, and the next two
    /// with any tones.
    Far,
}
