//! Rows of a link's table, and longer exchanges, as lines of text: what happens, and after a bar what the link does at
//! the last of that, in frames and in what it tells.
//!
//! What happens is a list of words with numbers:
//!
//! - `connect`, `send/7` (a packet of the octet 7), `sends/3` (packets of the octets 0, 1 and 2), `disconnect`.
//! - `ticks/200`, and `waits/200`, in which T1 stands still.
//! - `turns/4`: the channel takes four frames, if the link wants to send as many; `ends` takes one with which a
//!   transmission ends, and `fulls/4` four in full duplex.
//! - `SABM/1`, and so SABME, DISC, DM, UA: P or F.
//! - `RR/0/1` is a response with N(R) 0 and F = 1, `RRc/0/1` the command, and so RNR, REJ, SREJ.
//! - `I/2/0/1` is an I frame of the octet 2 with N(S) 2, N(R) 0 and P = 1, and `hears/3` is I/0/0/0, I/1/0/0 and
//!   I/2/0/0.
//! - `UI`, `FRMR`.
//! - `XID/1/2` is a response with F = 1 that tells a window of 2, `XIDc/1/2` the command; 0 tells nothing.
//! - `look` shows the state and the modulus, `wants` whether the link wants to send, and `asks` which events would make
//!   it send SABM, SABME or DISC: a call, a disconnect, a tick, a turn, an FRMR, and an I frame with N(R) 1.
//!
//! A frame that is sent modulo 128 has `/128` after it.
mod asking;
mod kinds;
mod link;
mod refusals;
mod setting_up;
mod up;
mod worked;
