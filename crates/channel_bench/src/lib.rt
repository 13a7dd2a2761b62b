//! Two stations joined by sound in one process, plainly or in blocks of FX.25, with losses and noise. What is promised:
//! a run of them, and its report, are exactly those of the definition. In each set-up a host is given a first part of
//! what its partner's host gave in one set-up of its own, and these set-ups come in order (`bench`): the laws of
//! `station_laws`, on what the stations heard.
#![tactic(auto)]

mod air;
mod benching;
mod block_ear;
mod ear;
mod flight;
mod laws;
mod matching;
mod plain_ear;
mod program;
mod report;
mod requests;
mod run;
mod shared;
mod side;
mod trouble;
mod words;

pub use benching::bench;
pub use laws::{bench_law, one_report, programs_follow};
pub use report::{BenchFault, BenchReport, SetUp};
pub use words::BenchWords;
