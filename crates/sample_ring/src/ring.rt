//! The ring itself, which the writer and the readers share.
ghost use Rattle.std.specs.Prelude.{◌≡◌, ℕ, ◌+◌, ◌<◌, ◌≤◌, ◌⊎◌, ◌↔◌, true, [], length, map, IfOk};
ghost use Rattle.std.specs.List.{All};
ghost use Rattle.std.specs.Result.{IsErrOf};

use crate::history::History;
use crate::reader::Reader;
use crate::rule::RingRule;
use crate::view::View;
use crate::writer::{Writer, WriterDone};
use atomic_table::Table;
use std::alloc::{AllocError, Global};
use thiserror::Error;

/// The most cells of a ring, which hold about 109 seconds at 9600 samples a second.
const MOST_CELLS: u32 = 1_048_576;

/// The most readers of a ring.
const MOST_READERS: u8 = 64;

/// Why no ring was made.
#[derive(Debug, Drop, Error)]
pub enum RingFault {
    /// A ring has 1 to 1,048,576 cells.
    #[error("a ring of {len} cells")]
    BadLen { len: u32 },
    /// A ring has 1 to 64 readers.
    #[error("a ring of {readers} readers")]
    BadReaders { readers: u8 },
    /// Want of memory.
    #[error("out of memory")]
    Memory,
}

/// The cells and the end word. Threads share it by reference, and each end is lent it at each call.
#[derive(Drop)]
pub struct Ring {
    pub(crate) table: Table<(), View, usize, RingRule, Global>,
    pub(crate) len: usize,
    ghost key: { table.shared.key ≡ len },
    ghost words: { table.shared.table_id.words ≡ len + 1 },
    ghost positive: { 0 < len },
}

impl Ring {
    ghost use Rattle.sample_ring.specs.Ends.{ring_id, ring_len, writer_ring, done_ring, reader_ring, published_by};
    ghost use Rattle.sample_ring.specs.Ends.{all_published, record_of, listed, records_of, IsNew};
    ghost use Rattle.sample_ring.specs.Record.{StandsIn};

    /// A ring of `len` cells with nothing published, its writer, and its readers at position 0.
    pub fn new(
        alloc: Global,
        len: u32,
        readers: u8,
    ) -> Result<(Ring, Writer, Vec<Reader>), RingFault>
        ensures bad_len { (n : ℕ) → IsErrOf result (RingFault.BadLen n) ↔ ((n ≡ len) × ((len ≡ 0) ⊎ (1048576 < len))) }
        ensures bad_readers { (n : ℕ) → IsErrOf result (RingFault.BadReaders n)
            ↔ ((n ≡ readers) × (0 < len) × (len ≤ 1048576) × ((readers ≡ 0) ⊎ (64 < readers))) }
        ensures len { IfOk result (λ made. ring_len made.0 ≡ len) }
        ensures writer { IfOk result (λ made. (writer_ring made.1 ≡ ring_id made.0) × (published_by made.1 ≡ [])) }
        ensures readers { IfOk result (λ made. (length made.2.items ≡ readers)
            × All (λ reader. (reader_ring reader ≡ ring_id made.0) × IsNew reader) made.2.items) }
    {
        if len == 0 || len > MOST_CELLS {
            return Err(RingFault::BadLen { len });
        }
        if readers == 0 || readers > MOST_READERS {
            return Err(RingFault::BadReaders { readers });
        }
        match Ring::made(alloc, len as usize, readers as usize) {
            Ok(made) => Ok(made),
            Err(_) => Err(RingFault::Memory),
        }
    }

    // The same, of a length and a number of readers that are in range.
    fn made(
        alloc: Global,
        len: usize,
        readers: usize,
    ) -> Result<(Ring, Writer, Vec<Reader>), AllocError>
        requires { (0 < len) × (len ≤ 1048576) }
        ensures len { IfOk result (λ made. ring_len made.0 ≡ len) }
        ensures writer { IfOk result (λ made. (writer_ring made.1 ≡ ring_id made.0) × (published_by made.1 ≡ [])) }
        ensures readers { IfOk result (λ made. (length made.2.items ≡ readers)
            × All (λ reader. (reader_ring reader ≡ ring_id made.0) × IsNew reader) made.2.items) }
    {
        let words = vec![in alloc; 0; len + 1]?;
        let (table, seat) = Table::of_words(alloc, words.as_slice(), &len)?;
        let ring = Ring { table, len };
        let mut writer = Writer { count: 0, seat };
        let ends = writer.first_readers(alloc, &ring, readers)?;
        Ok((ring, writer, ends))
    }

    /// Takes the ring apart, once its writer has ended. The history has the whole list that was published, and the
    /// record of each reader that is handed in, in their order; each of these records stands in the list.
    pub fn close(self, done: WriterDone, readers: Vec<Reader>) -> History
        requires done { done_ring done ≡ ring_id self }
        requires readers { All (λ reader. reader_ring reader ≡ ring_id self) readers.items }
        ensures list { listed result ≡ all_published done }
        ensures records { records_of result ≡ map record_of readers.items }
        ensures stand { All (StandsIn (ring_len self) (listed result) true) (records_of result) }
    {
        let WriterDone { count, seat } = done;
        let mut history = History { count, seat };
        for reader in readers {
            history.keep(&self, reader);
        }
        history
    }
}
