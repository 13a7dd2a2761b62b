//! Heard frames as text.
ghost use Rattle.std.specs.Prelude.{◌≡◌, ◌++◌, IfOk, OnOk};
ghost use Rattle.frame_merge.specs.Merged.{candidate_frames};
ghost use Rattle.tnc_decode.specs.Printing.{print, printed};

use frame_merge::Candidate;
use kiss_port::write_kiss;
use std::alloc::Global;
use tnc_base::OutOfMemory;
use tnc_forms::print_hex_line;
use tnc_words::FrameForm;

/// The frames of candidates in a form, in order.
pub fn print(alloc: Global, form: FrameForm, items: &[Candidate]) -> Result<Vec<u8>, OutOfMemory>
    ensures { IfOk result (λ text. text.items ≡ print form (candidate_frames items.now)) }
{
    let mut text = Vec::new(alloc);
    for item in items {
        push_frame(alloc, form, item.octets.as_slice(), &mut text)?;
    }
    Ok(text)
}

/// Appends one frame.
fn push_frame(
    alloc: Global,
    form: FrameForm,
    octets: &[u8],
    text: &mut Vec<u8>,
) -> Result<(), OutOfMemory>
    ensures { OnOk result (text.new.items ≡ text.old.items ++ printed form octets.now) }
{
    match form {
        FrameForm::Hex => text.extend_from_slice(&print_hex_line(alloc, octets)?)?,
        FrameForm::Kiss => text.extend_from_slice(write_kiss(alloc, 0, 0, octets)?.as_slice())?,
    }
    Ok(())
}
