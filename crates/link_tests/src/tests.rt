//! Tests of frames and links, each in a file of its own.

mod address;
mod assertions;
mod frames;
mod incoming;
mod machine;
mod monitor;
mod outgoing;
mod packets;
mod repeater;
mod script;
mod world;
