//! Tests of the key of a transmitter, in a crate of their own: so each library is proved once, without them. `machine`
//! tests `keying`, and `line` `key_port`. What rigctld may do, and what must come of it, is worked out by hand from
//! rigctld(1).
#![tactic(auto)]

#[cfg(test)]
mod tests;
