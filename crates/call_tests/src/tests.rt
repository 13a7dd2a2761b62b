//! One call, as a client of a host and over sockets.

mod calling;
mod client;
mod octets;
mod words;
