//! Frames as lines of hexadecimal digits.
ghost use Rattle.std.specs.Prelude.{◌≡◌, ◌≤◌, ◌<◌, ◌+◌, ◌∷◌, [], length, position, IfOk, IfSome};
ghost use Rattle.std.specs.Str.Lines.{strip_carriage_return};
ghost use Rattle.tnc_forms.specs.HexLines.{is_line_feed, lines_at, lines_after};
ghost use Rattle.tnc_forms.specs.Faults.{hex_fault};
ghost use Rattle.tnc_forms.specs.HexFrames.{frames_in_lines};

use crate::fault::InputFault;
use crate::hex_line::{LineText, read_line};
use crate::line_fault::LineFault;
use std::alloc::Global;
use tnc_base::{Octets, OutOfMemory};

/// The frames of the lines before the first bad one, and what is wrong with that one.
#[derive(Drop)]
pub struct HexFrames {
    pub frames: Vec<Octets>,
    pub fault: Option<InputFault>,
}

/// Reads an input to its end or to its first bad line. A line ends at a line feed or at the end of the input, and a
/// carriage return right before the line feed is none of it; an empty line is passed over. `least` is the fewest octets
/// of a frame.
pub fn read_hex_frames(alloc: Global, least: usize, input: &[u8]) -> Result<HexFrames, OutOfMemory>
    ensures frames { IfOk result (λ read. read.frames.items ≡ frames_in_lines least input.now) }
    ensures fault { IfOk result (λ read. read.fault ≡ hex_fault least input.now) }
{
    let mut frames = Vec::new(alloc);
    let mut place = Some(0);
    'lines: while let Some(at) = place {
        let (text, next) = line_at(input, at);
        match read_line(alloc, least, text)? {
            LineText::Nothing => {}
            LineText::Frame(octets) => frames.push(octets)?,
            LineText::Refused(flaw, offset) => {
                let place = at + offset;
                return Ok(HexFrames {
                    frames,
                    fault: Some(InputFault::Line(LineFault { flaw, place })),
                });
            }
        }
        place = next;
    }
    Ok(HexFrames {
        frames,
        fault: None,
    })
}

/// The line that begins at a place, and where the next one does.
fn line_at(input: &[u8], place: usize) -> (&[u8], Option<usize>)
    requires { place ≤ length input.now }
    ensures lines { lines_at input.now place
        ≡ record { place = place; text = result.0.now } ∷ lines_after input.now result.1 }
    ensures within { place + length result.0.now ≤ length input.now }
    ensures next { IfSome result.1 (λ next. (place < next) × (next ≤ length input.now)) }
{
    let rest = &input[place..];
    match line_feed(rest) {
        Some(length) => (
            without_carriage_return(&rest[..length]),
            Some(place + length + 1),
        ),
        None => (rest, None),
    }
}

/// The place of the first line feed.
pub(crate) fn line_feed(octets: &[u8]) -> Option<usize>
    ensures { result ≡ position is_line_feed octets.now }
{
    octets.iter().position(|octet| *octet == b'\n')
}

/// A line without the carriage return at its end.
pub(crate) fn without_carriage_return(line: &[u8]) -> &[u8]
    ensures { result.now ≡ strip_carriage_return line.now }
{
    match line {
        [before @ .., b'\r'] => before,
        _ => line,
    }
}
