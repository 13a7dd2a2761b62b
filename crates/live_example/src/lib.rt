//! A worked run for the law of two live stations (AX.25 2.2, AGWPE TCP/IP socket interface).
//!
//! All that `two_live_runs` of `live_laws` asks of the steps of two live runs can be met together, by steps of which it
//! says something ([`premises_can_be_met`]): so the law is not empty.
#![tactic(auto)]

mod laws;

pub use laws::premises_can_be_met;
