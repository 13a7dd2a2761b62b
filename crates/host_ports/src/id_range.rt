//! The ids that came, as ranges. Sockets that count their connections keep it at one range, however long they run.
ghost use Rattle.std.specs.Prelude.{◌≡◌, ℕ, ◌==◌, ◌||◌, OnOk, OnErr};
ghost use Rattle.host_ports.specs.IdRanges.{is_within};

use tnc_base::OutOfMemory;

/// The ids from one to another, both of them too.
#[derive(Clone, Copy, Debug)]
pub struct IdRange {
    /// The first.
    pub first: u32,
    /// The last.
    pub last: u32,
}

/// Whether one of the ranges has the id.
pub(crate) fn is_within(id: u32, ranges: &[IdRange]) -> bool
    ensures { result ≡ is_within id ranges.now }
{
    for range in ranges {
        if range.first <= id && id <= range.last {
            return true;
        }
    }
    false
}

/// Adds an id: to the last range, if it is the next number after it, and else as a range of its own.
pub(crate) fn add(ranges: &mut Vec<IdRange>, id: u32) -> Result<(), OutOfMemory>
    ensures added { (other : ℕ) → OnOk result (is_within other ranges.new.items
        ≡ (is_within other ranges.old.items || (id == other))) }
{
    if let Some(range) = ranges.last_mut() {
        if range.first <= range.last && range.last < u32::MAX && range.last + 1 == id {
            range.last = id;
            return Ok(());
        }
    }
    ranges.push(IdRange {
        first: id,
        last: id,
    })?;
    Ok(())
}
