//! Arguments that laws on runs share: steps one after another, and one of two choices.
//!
//! The crate has no code. What holds from before to after each step of a relation holds from the first to the last of
//! any number of them.
#![tactic(auto)]
