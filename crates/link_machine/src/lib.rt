//! One link of AX.25 2.2 (sections 4, 6), modulo 8 or 128, as a machine without a clock of its own. Each call is one
//! event: a request of the layer above, a frame heard, a tick of 10 ms, or the channel takes a frame. It answers the
//! frames that are sent, each with its modulus, and what the layer above is told. Lost I frames are asked for again by
//! REJ or by SREJ. Every call makes exactly the step of the link's table, and one that is refused or finds no memory
//! changes nothing.
//!
//! I and S frames wait in no queue: [`Link::wants`] says that there is something to send, and [`Link::seize`] gives one
//! frame, made from what the link then knows (LM-SEIZE, section C4). So an acknowledgement is never older than the
//! transmission that it goes with, and nothing is sent again that was acknowledged meanwhile.
//!
//! ```text
//! A call                        A                         B
//!   connect                     | -- SABM P=1 ----------> |  told: opened
//!   told: opened, ours          | <----------- UA F=1 --- |
//! A wide call of a side that knows modulo 8 alone
//!   connect                     | -- SABME P=1 ---------> |
//!                               | <--------- FRMR F=1 --- |
//!                               | -- SABM P=1 ----------> |  told: opened
//!   told: opened, ours          | <----------- UA F=1 --- |
//! Data
//!   seize, seize, seize         | -- I ns=0, 1 ---------> |  told: given, given
//!   the window is full          | -- I ns=2 P=1 --------> |  told: given
//!   more waits                  | <--------- RR nr=3 F=1  |  seize
//! A loss with REJ
//!                               | -- I ns=3 ---- lost     |
//!                               | -- I ns=4 P=1 --------> |  not the next
//!                               | <--------- REJ nr=3 F=1 |  seize
//!                               | -- I ns=3, I ns=4 ----> |  told: given, given
//! A loss with SREJ
//!                               | -- I ns=5 ---- lost     |
//!                               | -- I ns=6 P=1 --------> |  stored
//!                               | <--- SREJ nr=5, RR F=1  |  seize, seize
//!                               | -- I ns=5 ------------> |  told: given, given
//! XID, by the side that called modulo 128
//!   the next tick               | -- XID P=1 -----------> |  uses what is agreed on
//!   uses what is agreed on      | <---------- XID F=1 --- |
//! A poll
//!   T1 runs out, seize          | -- I P=1, or RR P=1 --> |
//!   goes back to V(A)           | <--------- RR nr F=1 -- |  seize
//! A release
//!   disconnect, nothing waits   | -- DISC P=1 ----------> |  told: ended by the peer
//!   told: ended as asked        | <----------- UA F=1 --- |
//! ```
//!
//! Where the standard leaves a choice, or this machine differs:
//!
//! - An N(R) is valid from V(A) to one past the last I frame that was ever sent, and not to V(S): REJ and a poll's
//!   answer take V(S) back, and a late acknowledgement of what was sent is no error (section 6.4).
//! - SREJ acknowledges the packets below its number with P/F = 1 alone (section 4.3.2.4).
//! - An S frame whose C bits are equal, as the older version has them, is a response (section 6.1.2).
//! - A UA or DM ends a call or a release only with F = 1; a DM ends a link that is up with any F (section 6.3).
//! - At the last retry a link that is up sends DM with F = 0 and ends (section 6.7.2). There are ten retries, or as many
//!   as the link was made with.
//! - FRMR is never sent. A frame with an invalid N(R), or an FRMR, ends the set-up, and this side calls anew
//!   (section 6.5).
//! - RNR is never sent.
//! - Every link answers SABM and SABME, and takes the modulus of the one that it hears; `wide` says how it calls
//!   itself. FRMR or DM in reply to SABME brings SABM, with all retries anew (section 6.3.1). After three retries
//!   without an answer the call goes on with SABM too, since a side that does not know SABME may be silent; if the link
//!   has no more than three, the last of them is SABM.
//! - While a wide call is under way SABM is passed over: the other side hears the SABME, and answers it by DM or FRMR.
//!   SABME is answered by DM while a call modulo 8 is under way.
//! - A link that is not there counts modulo 8. The frame that ends a set-up is written in the modulus of that set-up.
//! - A packet that is given while the call is under way belongs to the set-up that follows.
//! - A disconnect takes a call back at once, with DM, F = 0, for a side that has heard it. A link that is up is released
//!   once every packet is acknowledged, and at once if the layer above asks again (section 6.3.4).
//! - A link that is not there answers an I or S frame only with P = 1, so that a transmission has one answer.
//! - T1 counts silence alone: it stands still while a frame of the link waits or is on the air, and while the channel
//!   is busy in half duplex, since no answer can be expected then. So it needs no measured round trip (section
//!   6.7.1.1): it is two seconds, or what the link was made with, and twice as much more for each repeater, and from the
//!   fourth retry on a multiple of that.
//! - There is no T2: the time until the channel takes the next frame serves for it.
//! - The last I frame of a transmission in half duplex has P = 1 if more packets wait. If the other side sends and does
//!   not answer it, it did not hear it, and what is not acknowledged is sent again without waiting for T1.
//! - A poll is the I frame V(A), if that is short, since its repeat may save the answer (section 6.4.11).
//! - A frame that is no answer shows no state of rejection: by REJ each frame ahead of V(R) has REJ sent, one a
//!   transmission; by SREJ a poll has all that is missing asked for anew.
//! - XID agrees on the smaller window for what is sent, the longer T1 and the more retries, and on nothing else. The side
//!   that called modulo 128 asks, four times at most, in its first set-up; a set-up begins with the link's own parameters.
//!   A link that is not there answers by what it can do modulo 128; one that calls or is released does not answer.
//! - T3 begins anew with every I and S frame that is heard, so that a link on which something comes is not polled
//!   (section 6.7.1.3).
#![tactic(auto)]

mod acts;
mod asks;
mod control;
mod fault;
mod hearing_down;
mod hearing_up;
mod link;
mod machine;
mod negotiating;
mod params;
mod receiving;
mod requests;
mod room;
mod seizing;
mod sending;
mod setting_up;
mod state;
mod ticks;

pub use acts::{Acts, SentFrame, Told, Why};
pub use control::Control;
pub use fault::{LinkFault, NewFault};
pub use link::Link;
pub use machine::Machine;
pub use params::{FittingParams, Params};
pub use state::LinkState;
