//! Frames as lines of text.
ghost use Rattle.std.specs.Prelude.{◌≡◌, ◌≤◌, ◌<◌, ◌+◌, ◌^◌, ◌++◌, List, ℕ, Some, length, string_bytes, IfOk, OnOk};
ghost use Rattle.std.specs.List.{AllZip, flat_map};
ghost use Rattle.std.specs.Option.{option_to_list};
ghost use Rattle.tnc_forms.specs.declared.fault.InputFault.{InputFault};
ghost use Rattle.tnc_forms.specs.HeldLine.{HeldLine, StandsFor, position_of};
ghost use Rattle.tnc_show.specs.Shown.{IsLineOf, IsTextOf, ended};
ghost use Rattle.tnc_show.specs.HeldShow.{HasTaken};

use ax25_frames::{FrameFault, Modulus, read_frame, text_of, text_of_fault};
use std::alloc::Global;
use tnc_base::{Octets, OutOfMemory};
use tnc_forms::{Fault, HexIn, InputFault};

/// Takes the next octets of an input, and puts the lines of the frames that end in them in place of `text`. A bad line
/// ends this, and is told.
pub(crate) fn take_lines(
    alloc: Global,
    modulus: Modulus,
    lines: &mut HexIn,
    octets: &[u8],
    text: &mut Vec<u8>,
) -> Result<Option<InputFault>, OutOfMemory>
    requires room { position_of lines.old + length octets.now < 2 ^ 64 }
    requires least { lines.old.least ≡ 0 }
    ensures taken { (before : List ℕ) → StandsFor lines.old before
        → IfOk result (λ fault. HasTaken modulus before octets.now text.new.items lines.new fault) }
    ensures position { IfOk result (λ fault. fault ≡ None → position_of lines.new
        ≡ position_of lines.old + length octets.now) }
    ensures least { IfOk result (λ fault. fault ≡ None → lines.new.least ≡ 0) }
{
    text.clear();
    let mut rest = octets;
    'lines: while !rest.is_empty() {
        match lines.take(rest) {
            Ok((count, frame)) => {
                push_frame(alloc, modulus, frame, text)?;
                rest = &rest[count..];
            }
            Err(Fault::Input(fault)) => return Ok(Some(fault)),
            Err(_) => return Err(OutOfMemory),
        }
    }
    Ok(None)
}

/// Appends the line of a frame, if there is one.
pub(crate) fn push_frame(
    alloc: Global,
    modulus: Modulus,
    frame: Option<Octets>,
    text: &mut Vec<u8>,
) -> Result<(), OutOfMemory>
    ensures { OnOk result ((more : List ℕ) × IsTextOf modulus (option_to_list frame) more
        × (text.new.items ≡ text.old.items ++ more)) }
{
    if let Some(octets) = frame {
        let line = line_of(alloc, modulus, octets.as_slice())?;
        push_line(text, line.as_str())?;
    }
    Ok(())
}

/// The line of a frame, or of what is wrong with octets that are none.
fn line_of(alloc: Global, modulus: Modulus, octets: &[u8]) -> Result<String, OutOfMemory>
    ensures { IfOk result (λ line. IsLineOf modulus octets.now (string_bytes line)) }
{
    match read_frame(alloc, octets, modulus) {
        Ok(frame) => text_of(alloc, &frame),
        Err(FrameFault::Memory) => Err(OutOfMemory),
        Err(fault) => text_of_fault(alloc, fault),
    }
}

/// Appends a line, and the line feed that ends it.
fn push_line(text: &mut Vec<u8>, line: &str) -> Result<(), OutOfMemory>
    ensures { OnOk result (text.new.items ≡ text.old.items ++ ended line.now) }
{
    text.extend_from_slice(line.as_bytes())?;
    text.push(b'\n')?;
    Ok(())
}
