//! The lines of the report.
ghost use Rattle.std.specs.Prelude.{◌≡◌, ◌++◌, OnOk, IfOk, string_bytes};
ghost use Rattle.tnc_record.specs.RecordText.{GapLine, FrameLine, LostLine, ended_line, report_text};
ghost use Rattle.tnc_record.specs.RecordText.{turn_lines, text_of_gaps, text_of_frames, text_of_losses};

use frame_merge::Candidate;
use ring_receiver::Heard;
use ring_recorder::Loss;
use slicer_bank::LaneGap;
use std::alloc::Global;
use tnc_base::OutOfMemory;

/// The text of a turn: a line for each gap, and then one for each frame that is due.
pub(crate) fn text_of_turn(alloc: Global, heard: &Heard) -> Result<Vec<u8>, OutOfMemory>
    ensures { IfOk result (λ text. text.items ≡ report_text (turn_lines heard.now.gaps.items heard.now.items.items)) }
{
    let mut text = Vec::new(alloc);
    add_gaps(alloc, &mut text, &heard.gaps)?;
    add_frames(alloc, &mut text, &heard.items)?;
    Ok(text)
}

/// The text of losses, a line for each.
pub(crate) fn text_of_losses(alloc: Global, losses: &[Loss]) -> Result<Vec<u8>, OutOfMemory>
    ensures { IfOk result (λ text. text.items ≡ text_of_losses losses.now) }
{
    let mut text = Vec::new(alloc);
    for loss in losses {
        let line = loss_line(alloc, loss)?;
        text.extend_from_slice(line.as_bytes())?;
    }
    Ok(text)
}

fn add_gaps(alloc: Global, text: &mut Vec<u8>, gaps: &[LaneGap]) -> Result<(), OutOfMemory>
    ensures { OnOk result (text.new.items ≡ text.old.items ++ text_of_gaps gaps.now) }
{
    for gap in gaps {
        let line = gap_line(alloc, gap)?;
        text.extend_from_slice(line.as_bytes())?;
    }
    Ok(())
}

fn add_frames(alloc: Global, text: &mut Vec<u8>, items: &[Candidate]) -> Result<(), OutOfMemory>
    ensures { OnOk result (text.new.items ≡ text.old.items ++ text_of_frames items.now) }
{
    for item in items {
        let line = frame_line(alloc, item)?;
        text.extend_from_slice(line.as_bytes())?;
    }
    Ok(())
}

fn gap_line(alloc: Global, gap: &LaneGap) -> Result<String, OutOfMemory>
    ensures { IfOk result (λ line. string_bytes line ≡ ended_line (GapLine gap.now)) }
{
    let LaneGap { lane, from, to } = gap;
    Ok(format!(in alloc; "gap {lane} {from} {to}\n")?)
}

fn frame_line(alloc: Global, item: &Candidate) -> Result<String, OutOfMemory>
    ensures { IfOk result (λ line. string_bytes line ≡ ended_line (FrameLine item.now)) }
{
    let end = item.end;
    let octets = hex::encode(alloc, item.octets.as_slice())?;
    Ok(format!(in alloc; "frame {end} {octets}\n")?)
}

fn loss_line(alloc: Global, loss: &Loss) -> Result<String, OutOfMemory>
    ensures { IfOk result (λ line. string_bytes line ≡ ended_line (LostLine loss.now)) }
{
    let Loss { from, to } = loss;
    Ok(format!(in alloc; "lost {from} {to}\n")?)
}
