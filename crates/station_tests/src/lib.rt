//! Tests of the crates from the streams of host programs to the shared channel, in a crate of their own: so each
//! library is proved once, without them. What tests of the live side need too is public.
//!
//! Frames, messages and streams are octets from outside, after AX.25 2.2, the KISS protocol and the AGWPE interface.
//! Counts of ticks and places of samples are worked out beside the tests from the lengths of the frames.
#![tactic(auto)]

#[cfg(test)]
mod assertions;
mod messages;
#[cfg(test)]
mod tests;

#[cfg(test)]
pub(crate) use assertions::assert_equal;
pub use messages::{field, message, message_with_pid};
