//! Tests of the receivers: `slicer_bank`, `clean_signal`, `wide_input`, `hf_modem`, `hf_signal`, `sensitive_receiver`,
//! `sensitive_blocks` and `ring_receiver`.
//!
//! They stand apart from the code that they test, so that a check of a library does not prove its tests as well. The
//! signal of the tests is worked by a table of its tones and a table of a sine. What the added lanes of a sensitive
//! receiver hear is what a second program found by the definitions.
#![tactic(auto)]

#[cfg(test)]
mod tests;
