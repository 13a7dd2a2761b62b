//! FX.25 blocks: a Reed-Solomon code around a frame of AX.25, so that it is heard also if some octets came wrong.
//!
//! `write_unit` gives the bits of a frame with 16, 32 or 64 check octets. A `BlockReader` takes bits one by one, and at
//! each of them tells exactly which frame the block carries that ends there: a block whose tag has at most 12 of its 64
//! bits wrong, and at most half as many octets wrong as it has check octets. `block_with_unknown` also reads a block with
//! more wrong octets, if it is told how sure each one is. Reading takes no memory.
#![tactic(auto)]

mod block;
mod block_code;
mod block_coming;
mod block_reader;
mod block_reading;
mod certainties;
mod coarse_counts;
mod coarse_rows;
mod laws;
mod least_sure;
mod opening;
mod packing;
mod recent;
mod tag_choice;
mod tag_search;
mod tags;
#[cfg(test)]
mod tests;
mod unknown_octets;

pub use block::{block_of, write_block, write_unit};
pub use block_reader::BlockReader;
pub use certainties::Certainties;
pub use laws::{
    block_is_heard, near_block_ends_too, near_block_is_read, one_block_ends, one_frame_is_read,
    one_stretch_is_repaired, one_unsure_block_ends, tags_are_apart,
};
pub use opening::BlockFrame;
pub use tag_choice::tag_for;
pub use tag_search::{near_tag, shifted};
pub use tags::{TAGS, block_length, check_count, data_count, tag_value};
pub use unknown_octets::block_with_unknown;
