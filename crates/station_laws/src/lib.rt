//! Laws on two stations that hear each other (AX.25 2.2 section 6). A law is the contract of a function that does
//! nothing.
//!
//! They speak of every joint run of two stations, and of one link at a time. A link whose frames that are heard were
//! sent before, and are heard in order and once, whose windows fit and whose channel is quiet when it is set up or
//! ended keeps the law of two links: in each set-up a host is given a prefix of what its partner's host gave in one
//! set-up of its own, packet for packet, and these set-ups come in order ([`stations_law`]). What else is on the
//! channel does not matter.
#![tactic(auto)]

mod laws;

pub use laws::{
    answers_are_of_sent, answers_over_runs, askers_stand_beside, call_texts_agree, caller_law,
    ends_follow, hosts_ask_nothing, links_tell_in_one, matched_in_order, matched_law,
    one_frame_ends, one_turn, own_room, owners_are_told, programs_are_told, runs_tell_in_one,
    set_ups_law, stations_law, written_frames_agree,
};
