//! Tests of the live side and of the runs of `bench`, in a crate of their own: so each library is proved once, without
//! them. `live` tests `tnc_ports`, and `bench_runs` `channel_bench`.
//!
//! Messages and streams are octets from outside, and places of samples are worked out beside the tests.
#![tactic(auto)]

#[cfg(test)]
mod assertions;
#[cfg(test)]
mod tests;
