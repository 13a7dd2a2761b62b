//! A frame as a line of hexadecimal digits.
ghost use Rattle.std.specs.Prelude.{◌≡◌, IfOk};
ghost use Rattle.tnc_forms.specs.HexPrint.{printed_line};

use std::alloc::Global;
use tnc_base::OutOfMemory;

/// The line of a frame: its octets as lower-case hexadecimal digits, and a line feed.
#[tactic(auto, unfolding(crate::specs::HexPrint::printed_line))]
pub fn print_hex_line(alloc: Global, octets: &[u8]) -> Result<Vec<u8>, OutOfMemory>
    ensures { IfOk result (λ line. line.items ≡ printed_line octets.now) }
{
    let mut line = hex::encode(alloc, octets)?.into_bytes();
    line.push(b'\n')?;
    Ok(line)
}
