//! Two links of AX.25 2.2 (section 6) and the frames in flight between them, towards each end one list. Frames may be
//! late or lost, and are never made up, doubled or reordered. Each event is one step of one end's link, or the loss of
//! a frame. It makes exactly the step of each world that the two links and the frames stand for, and the world stops
//! if a SABM or DISC is sent into a channel that holds an earlier one of the same end, or an answer to one. In every
//! such run, if the windows fit each other and no idle end is called while its own SABM or DISC is in flight, what an
//! end got in a set-up is a prefix of what the other end was given in one set-up of its own (`prefix_law`).
#![tactic(auto)]

mod end;
mod event;
mod fault;
mod flight;
mod happening;
mod laws;
mod request;
mod side;
mod world;

pub use end::End;
pub use event::Event;
pub use fault::WorldFault;
pub use laws::{changes_law, prefix_law, tags_do_not_matter};
pub use world::World;
