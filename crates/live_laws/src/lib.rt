//! The law of two live stations: two runs of `serve` that hear each other (AX.25 2.2, AGWPE TCP/IP socket interface).
//!
//! Of any two runs that serving describes, taken in one order of their steps, what a host got over a link is a first part
//! of what the partner's hosts gave, set-up by set-up, in octets over messages ([`two_live_runs`]). A law is the contract
//! of a function that does nothing.
#![tactic(auto)]

mod laws;

pub use laws::{
    bodies_are_given, steps_follow, takes_what_is_said, two_live_runs, two_runs_are_joint,
};
