//! Calls and address fields of AX.25 2.2 frames (section 3.12): the text of a call, and the path of a
//! frame, which is its destination, its source and up to eight repeaters. A path is read from octets
//! exactly when they spell one, each fault names the octet at which it shows, and what is written is
//! read again as the same path.
#![tactic(auto)]

mod call;
mod fault;
mod field;
mod path;
mod spelling;

pub use call::{Call, CallFault};
pub use fault::AddrFault;
pub use path::{Hop, Path, Role, reversed};
pub use spelling::{read_path, write_path};
