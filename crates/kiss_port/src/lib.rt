//! Frames and parameters between a host and a TNC on a stream of octets, after the KISS protocol (Chepponis and Karn,
//! 1987). A reader takes the octets one by one and gives each item at the FEND that ends its piece of the stream,
//! however the stream is cut into calls. It keeps at most 1027 octets. What `write_kiss` writes is one piece, which is
//! read as the octets handed in.
#![tactic(auto)]

mod beginning;
mod fault;
mod host_reader;
mod item;
mod octet;
mod open_piece;
mod reader;
mod request_line;
mod writer;

pub use fault::KissFault;
pub use host_reader::KissHostIn;
pub use item::KissItem;
pub use reader::KissIn;
pub use writer::write_kiss;
