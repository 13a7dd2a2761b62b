//! What the program can be asked to tell of itself.

/// What a help text is about.
#[derive(Clone, Copy, Debug, PartialEq, Eq)]
pub enum Topic {
    /// All commands.
    Program,
    /// `decode` and its options.
    Decode,
    /// `encode` and its options.
    Encode,
    /// `show` and its option.
    Show,
    /// `loop` and its options.
    Loop,
    /// `bench` and its options.
    Bench,
    /// `serve` and its options.
    Serve,
    /// `record` and its options.
    Record,
    /// `call` and its options.
    Call,
}
