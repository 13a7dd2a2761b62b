//! The command `bench`: two stations are joined by sound, their hosts give each other a text, and what each host got is
//! told. The run is that of `channel_bench`: AX.25 2.2 over Bell 202, plainly or in blocks of FX.25, with random
//! losses and noise drawn from a seed.
//! What is promised: at a good end the text is the report of a run that is over, in which each host got in order what
//! its partner gave; the fault that ended another run is handed on, and nothing is written then.
#![tactic(auto)]

mod command;
mod fault;
mod reporting;
mod words;

pub use command::bench;
pub use fault::CommandFault;
pub use words::bench_words;
