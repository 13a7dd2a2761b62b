//! Tests of the recorder and of the command `record`, in a crate of their own: so each library is proved once, without
//! them.
//!
//! Heads and frames are octets from outside, and places of samples are worked out beside the tests.
#![tactic(auto)]

#[cfg(test)]
mod assertions;
#[cfg(test)]
mod tests;
