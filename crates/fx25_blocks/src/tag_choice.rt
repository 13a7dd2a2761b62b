//! Which tag a frame is sent with.

ghost use Rattle.std.specs.Prelude.{◌≡◌, IfSome};
ghost use Rattle.std.specs.Option.{IfNone};
ghost use Rattle.fx25_blocks.specs.Units.{FitsNoTag, IsTagFor};

use crate::tags::{TAGS, check_count, data_count};

/// The tag with so many check octets and the fewest data octets into which so many bits fit.
pub fn tag_for(checks: usize, needed: usize) -> Option<u8>
    ensures tag { IfSome result (λ tag. IsTagFor checks needed tag) }
    ensures none { IfNone result (FitsNoTag checks needed) }
{
    // Of tags with as many check octets, a later one has fewer data octets.
    for place in 0..TAGS {
        let tag = TAGS - place;
        if check_count(tag) == checks && needed <= 8 * data_count(tag) {
            return Some(tag);
        }
    }
    None
}
