//! The law of a call whose host is a live station (AX.25 2.2, AGWPE TCP/IP socket interface). A law is the contract of
//! a function that does nothing.
//!
//! A client of a station of a joint run calls the other station. What it prints is, octet for octet, a first part of
//! what the other station's host gave in one set-up of the link ([`a_call_prints_what_was_given`]).
#![tactic(auto)]

mod laws;

pub use laws::{
    a_call_prints_what_was_given, a_call_prints_what_was_seen_given, a_call_prints_what_was_told,
    first_part_is_read, set_ups_are_told,
};
