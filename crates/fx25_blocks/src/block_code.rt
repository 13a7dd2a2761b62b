//! The code of the blocks of a tag.

ghost use Rattle.std.specs.Prelude.{◌≡◌};
ghost use Rattle.fx25_blocks.specs.Tags.{IsTag, check_count};

use crate::tags::check_count;
use reed_solomon::{Code, Zeros};

// The first root is power(1). The zeros of a shortened word stand between data and check octets.
pub fn block_code(tag: u8) -> Code
    requires { IsTag tag }
    ensures first_root { result.first_root ≡ 1 }
    ensures check_count { result.check_count ≡ check_count tag }
    ensures zeros { result.zeros ≡ Zeros.Between }
{
    Code::new(1, check_count(tag), Zeros::Between).unwrap()
}
