//! One line of hexadecimal digits.
ghost use Rattle.std.specs.Prelude.{◌≡◌, IfOk};
ghost use Rattle.tnc_forms.specs.HexFrames.{text_of};

use crate::line_fault::LineFlaw;
use hex::FromHexError;
use std::alloc::Global;
use tnc_base::{Octets, OutOfMemory};

/// The most octets of a line.
pub(crate) const LONGEST_LINE: usize = 2048;

/// What a line holds.
#[derive(Debug, Drop)]
pub(crate) enum LineText {
    /// No octet.
    Nothing,
    /// A frame.
    Frame(Octets),
    /// Neither, for what shows at this place of the line.
    Refused(LineFlaw, usize),
}

/// Reads a line, which has no end of line in it. `least` is the fewest octets of a frame.
#[tactic(auto, unfolding(crate::specs::HexFrames::text_of))]
pub(crate) fn read_line(alloc: Global, least: usize, text: &[u8]) -> Result<LineText, OutOfMemory>
    ensures { IfOk result (λ line. line ≡ text_of least text.now) }
{
    if text.is_empty() {
        return Ok(LineText::Nothing);
    }
    if text.len() > LONGEST_LINE {
        return Ok(LineText::Refused(LineFlaw::LongLine, 0));
    }
    match hex::decode(alloc, text) {
        Ok(octets) if octets.len() < least => Ok(LineText::Refused(LineFlaw::ShortLine, 0)),
        Ok(octets) => Ok(LineText::Frame(Octets::from_slice(alloc, &octets)?)),
        Err(FromHexError::OutOfMemory) => Err(OutOfMemory),
        Err(FromHexError::InvalidHexCharacter { index, .. }) => {
            Ok(LineText::Refused(LineFlaw::BadDigit, index))
        }
        Err(_) => Ok(LineText::Refused(LineFlaw::OddLine, 0)),
    }
}
