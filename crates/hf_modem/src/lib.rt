//! The receiving half of a modem for packet radio on short wave: 300 bits a second, mark at 1600 Hz and space at 1800
//! Hz, 9600 samples a second and so 32 samples a bit.
//!
//! A receiver does not know where a bit begins, so an [`HfDecoder`] hears the bits at each of the 32 offsets of a bit,
//! and gives each frame once. An [`HfBank`] is its lanes alone, without the merging. What is promised: each tone decided
//! and each frame given is exactly the one of the definitions over all samples, in whatever blocks they came.
#![tactic(auto)]

mod bank;
mod block_hearing;
mod correlators;
mod decision;
mod decoder;
mod laws;
mod recent;
mod slicer;
mod window;

pub use bank::{HfBank, SAMPLES_AN_END};
pub use block_hearing::hear_block;
pub use decision::hf_decide;
pub use decoder::{HfDecoder, OFFSETS};
pub use laws::{
    hf_items_are_all, hf_items_join, one_list_of_hf_candidates, some_list_of_hf_candidates,
};
pub use slicer::HfSlicer;
