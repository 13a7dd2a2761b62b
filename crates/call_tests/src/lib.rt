//! Tests of a call over AGWPE, in a crate of their own: so each library is proved once, without them. `client` tests
//! `agwpe_client`, and `calling` `tnc_call` over sockets in memory.
//!
//! What a host sends and what it is sent are octets from outside.
#![tactic(auto)]

#[cfg(test)]
mod assertions;
#[cfg(test)]
mod tests;
