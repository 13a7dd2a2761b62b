//! Tests of keying, each in a file of its own.

mod assertions;
mod line;
mod machine;
