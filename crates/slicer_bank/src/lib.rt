//! Eight lanes side by side: one for each offset of a bit at 9600 samples a second.
//!
//! A receiver does not know where a bit begins, so each of its eight lanes takes the windows of one offset, and
//! looks for frames in the bits that they give. With each sample the window of one lane ends. What a lane hears is a
//! candidate, with the place where it ends. The candidates of all samples are a definition over the whole list of
//! samples: it does not matter in which blocks they came.
#![tactic(auto)]

mod advance;
mod bank;
mod decoder;
mod detection;
mod eight;
mod existence;
mod gate;
mod gathering;
mod job;
mod lane;
mod laws;
mod merging;
mod ring_bank;
mod ring_lane;
mod ring_lanes;
mod ring_merging;
mod ring_turn;
mod seven;
mod stretch_hearing;
mod stretch_lane;
mod tone_lane;
mod tone_listening;
mod window_hearing;

pub use advance::{Advance, LaneGap};
pub use bank::Bank;
pub use block_receiver::Progress;
pub use decoder::{Decoder, OnThreads};
pub use detection::Detection;
pub use eight::{octet_of, tones_of};
pub use existence::some_list_of_candidates;
pub use gate::{Gate, OpenGate};
pub use laws::{
    a_decoder_keeps_few, blocks_join, items_are_all, items_join, one_list_of_candidates,
    one_stretch_has_tones,
};
pub use merging::merge;
pub use ring_bank::RingBank;
pub use ring_merging::{merge_advance, nothing_is_merged};
pub use seven::{bridge, keep_last};
pub use tone_lane::ToneLane;
