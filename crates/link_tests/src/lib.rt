//! Tests of the libraries of frames and of links, in a crate of their own: so each library is proved once, without
//! them. `address` tests `ax25_address`, `frames` `ax25_frames`, `monitor` `frame_monitor`, `repeater` `digipeater`,
//! `incoming` and `outgoing` `selective_reject`, `machine` `link_machine`, and `world` `link_world`. The values come
//! from outside: the examples of AX.25 2.2, frames on the air, and the texts that other programs print.
#![tactic(auto)]

#[cfg(test)]
mod tests;
