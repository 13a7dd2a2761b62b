//! One connected call over the AGWPE port of a host on this machine: the text is read to its end, the port is dialed,
//! and in each turn the host is offered what waits for it and polled once, until the call is over or so many polls were
//! made. What is promised: what is printed and what the host takes is exactly what the table of a call tells on the
//! octets that came of the host, however they are cut, and each way to end comes of its cause.
#![tactic(auto)]

mod call_end;
mod call_words;
mod calling;
mod laws;
mod printing;
mod reading;
mod talk;

pub use call_end::CallEnd;
pub use call_words::CallWords;
pub use calling::call;
pub use laws::faultless_ends;
