//! Reed-Solomon codes over octets, as FX.25 and IL2P send them.
//!
//! A `Code` has from 2 to 64 check octets, and shortened words of at most 255 octets. `check_octets` gives the only
//! octets that make a codeword of data, and `repair` finds the codeword that differs in at most half as many octets as
//! there are check octets, exactly when there is one. `repair_with_unknown` does so for a word with unknown octets, each
//! of which costs one check octet where a wrong one costs two. Nothing takes memory.
#![tactic(auto)]

mod add_multiple;
mod code;
mod decoder;
mod encoder;
mod field;
mod generator;
mod kernel;
mod laws;
mod places;
mod roots;
#[cfg(test)]
mod tests;
mod unknown;
mod values;
mod words;
mod wrong_octets;

pub use code::{Code, MOST_CHECK_OCTETS, Zeros};
pub use decoder::{NoCodeword, is_codeword, repair, repair_with_unknown};
pub use encoder::check_octets;
pub use laws::{check_octets_are_one, codewords_are_apart, one_codeword_is_within_reach};
