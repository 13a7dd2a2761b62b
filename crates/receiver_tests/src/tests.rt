//! Tests of the receivers, each in a file of its own.

mod assertions;
mod bank;
mod block_decoder;
mod blocks;
mod blocks_by_all_lanes;
mod decoder;
mod example;
mod hf_decoder;
mod hf_sent;
mod laws;
mod meeting;
mod noisy_signal;
mod one_reader;
mod places;
mod publishing;
mod receiver;
mod ring_bank;
mod sensitive_decoder;
mod true_end;
mod wide_bank;
mod worked_signal;
