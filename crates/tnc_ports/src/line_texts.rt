//! The text of the report's lines.
ghost use Rattle.std.specs.Prelude.{◌≡◌, ◌++◌, [], ◌∷◌, IfOk, OnOk, map, string_bytes};
ghost use Rattle.tnc_ports.specs.HealthNotes.{dead_note, dropped_note, health_line, health_lines, stats_note};
ghost use Rattle.tnc_ports.specs.ReportText.{counts_text, ended_line, frames_text, note_text, report_text};
ghost use Rattle.tnc_ports.specs.ReportText.{sound_text};

use host_ports::{Counts, HealthNote, HealthNotes, ReportLine};
use std::alloc::Global;
use tnc_base::{Octets, OutOfMemory};

/// A thousand ticks of samples were all alike.
const DEAD_SOUND: &str = "dead sound\n";

/// The text of lines, each ended by a line feed.
pub fn text_of_lines(alloc: Global, lines: &[ReportLine]) -> Result<Vec<u8>, OutOfMemory>
    ensures { IfOk result (λ text. text.items ≡ report_text lines.now) }
{
    let mut text = Vec::new(alloc);
    for line in lines {
        let ended = text_of_line(alloc, line)?;
        text.extend_from_slice(&ended)?;
    }
    Ok(text)
}

/// The text of some lines and of those after them.
pub(crate) fn text_of_both(
    alloc: Global,
    lines: &[ReportLine],
    others: &[ReportLine],
) -> Result<Vec<u8>, OutOfMemory>
    ensures { IfOk result (λ text. text.items ≡ report_text (lines.now ++ others.now)) }
{
    let mut text = text_of_lines(alloc, lines)?;
    let rest = text_of_lines(alloc, others)?;
    text.extend_from_slice(&rest)?;
    Ok(text)
}

/// The text of a line, and the line feed that ends it.
fn text_of_line(alloc: Global, line: &ReportLine) -> Result<Vec<u8>, OutOfMemory>
    ensures { IfOk result (λ text. text.items ≡ ended_line line.now) }
{
    match line {
        ReportLine::GapLine { lane, from, to } => {
            let text = format!(in alloc; "gap {lane} {from} {to}\n")?;
            Ok(text.as_bytes().to_vec(alloc)?)
        }
        ReportLine::ClosedLine { id } => {
            let text = format!(in alloc; "closed {id}\n")?;
            Ok(text.as_bytes().to_vec(alloc)?)
        }
        ReportLine::ReceivedLine { text } => shown(alloc, b"rx ", text),
        ReportLine::SentLine { text } => shown(alloc, b"tx ", text),
        ReportLine::KeyLine { report } => {
            let mut line = report.text().as_slice().to_vec(alloc)?;
            line.push(b'\n')?;
            Ok(line)
        }
        ReportLine::HealthLine { note } => text_of_note(alloc, note),
    }
}

/// The text of a line that tells of the station's health, and the line feed that ends it.
fn text_of_note(alloc: Global, note: &HealthNote) -> Result<Vec<u8>, OutOfMemory>
    ensures { IfOk result (λ text. text.items ≡ note_text note.now ++ 10 ∷ []) }
{
    match note {
        HealthNote::Dropped(count) => {
            let text = format!(in alloc; "dropped {count}\n")?;
            Ok(text.as_bytes().to_vec(alloc)?)
        }
        HealthNote::DeadSound => Ok(DEAD_SOUND.as_bytes().to_vec(alloc)?),
        HealthNote::Stats(counts) => text_of_counts(alloc, counts),
    }
}

fn text_of_counts(alloc: Global, counts: &Counts) -> Result<Vec<u8>, OutOfMemory>
    ensures { IfOk result (λ text. text.items ≡ counts_text counts.now ++ 10 ∷ []) }
{
    let mut line = b"stats ".to_vec(alloc)?;
    let sound = text_of_sound(alloc, counts)?;
    line.extend_from_slice(sound.as_bytes())?;
    let frames = text_of_frames(alloc, counts)?;
    line.extend_from_slice(frames.as_bytes())?;
    line.push(b'\n')?;
    Ok(line)
}

/// The counts of the sound and of the channel.
fn text_of_sound(alloc: Global, counts: &Counts) -> Result<String, OutOfMemory>
    ensures { IfOk result (λ text. string_bytes text ≡ sound_text counts.now) }
{
    let Counts {
        ticks,
        peak,
        clipped,
        busy,
        ..
    } = counts;
    Ok(format!(in alloc; "{ticks} peak {peak} clipped {clipped} busy {busy}")?)
}

/// The counts of frames, and how many hosts and links there are.
fn text_of_frames(alloc: Global, counts: &Counts) -> Result<String, OutOfMemory>
    ensures { IfOk result (λ text. string_bytes text ≡ frames_text counts.now) }
{
    let Counts {
        heard,
        sent,
        dropped,
        hosts,
        links,
        ..
    } = counts;
    Ok(format!(in alloc;
        " heard {heard} sent {sent} dropped {dropped} hosts {hosts} links {links}"
    )?)
}

/// The text of what is told of the station's health after a tick.
pub(crate) fn text_of_notes(alloc: Global, notes: HealthNotes) -> Result<Vec<u8>, OutOfMemory>
    ensures { IfOk result (λ text. text.items ≡ report_text (health_lines notes)) }
{
    let mut lines = Vec::new(alloc);
    push_dropped(&mut lines, notes.dropped)?;
    push_dead(&mut lines, notes.dead)?;
    push_stats(&mut lines, notes.stats)?;
    text_of_lines(alloc, &lines)
}

fn push_dropped(lines: &mut Vec<ReportLine>, dropped: Option<u64>) -> Result<(), OutOfMemory>
    ensures { OnOk result (lines.new.items ≡ lines.old.items ++ map health_line (dropped_note dropped)) }
{
    if let Some(count) = dropped {
        lines.push(ReportLine::HealthLine {
            note: HealthNote::Dropped(count),
        })?;
    }
    Ok(())
}

fn push_dead(lines: &mut Vec<ReportLine>, dead: bool) -> Result<(), OutOfMemory>
    ensures { OnOk result (lines.new.items ≡ lines.old.items ++ map health_line (dead_note dead)) }
{
    if dead {
        lines.push(ReportLine::HealthLine {
            note: HealthNote::DeadSound,
        })?;
    }
    Ok(())
}

fn push_stats(lines: &mut Vec<ReportLine>, stats: Option<Counts>) -> Result<(), OutOfMemory>
    ensures { OnOk result (lines.new.items ≡ lines.old.items ++ map health_line (stats_note stats)) }
{
    if let Some(counts) = stats {
        lines.push(ReportLine::HealthLine {
            note: HealthNote::Stats(counts),
        })?;
    }
    Ok(())
}

/// The text of a frame after a word.
fn shown(alloc: Global, word: &[u8], text: &Octets) -> Result<Vec<u8>, OutOfMemory>
    ensures { IfOk result (λ line. line.items ≡ word.now ++ text.now ++ 10 ∷ []) }
{
    let mut line = word.to_vec(alloc)?;
    line.extend_from_slice(text.as_slice())?;
    line.push(b'\n')?;
    Ok(line)
}
