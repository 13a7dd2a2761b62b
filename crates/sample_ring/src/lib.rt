//! The broadcast ring: one writer, many readers, nobody waits and nothing is invented.
//!
//! A ring is a row of cells, each one word of a table whose words change in single atomic steps. The sample of a
//! position goes to the cell that is the position modulo the ring's length. Its word tells both at once: the *lap*,
//! which is the position plus 1, above the 16 bits of the sample. So no sample can be torn, and none can pass for
//! another position's: a word says itself which position it is of. One more word, the end word, is 0 until the writer
//! ends the ring, and then the count of all samples plus 1.
//!
//! A publish is one store. A reader that stands at position p loads the cell of p and compares laps:
//!
//! - p's own lap: the sample, and the reader goes on to p + 1;
//! - a later lap, of a position q: the writer has passed here again, so of a ring of n cells all positions up to q - n
//!   are overwritten. The reader is told that gap, from p to q - n + 1, and goes on from there;
//! - an earlier lap or 0: position p was not published when the cell was loaded, and since the reader has passed all
//!   below p, exactly p samples were. The end word, loaded next, tells whether that is the total.
//!
//! Nobody waits, since no step depends on another thread's: the writer overwrites what slow readers have not read, and
//! a reader answers from the words that it loaded in that call. A reader that has learnt a note, a token of a count, is
//! told `Empty` at no position below that count.
//!
//! The published list stands in no memory. It is what the table's rule speaks of: what each word tells of it, and what
//! each end knows of it. A reader's record, all its reads with the words that they loaded, exists in proofs alone as
//! well. It stands in the published list, as the records that `Ring::close` is handed show.
#![tactic(auto)]

mod cell;
mod got;
mod history;
mod note;
mod reader;
mod ring;
mod rule;
mod view;
mod writer;

pub use got::Got;
pub use history::History;
pub use note::Note;
pub use reader::Reader;
pub use ring::{Ring, RingFault};
pub use writer::{RingEnd, Writer, WriterDone};
