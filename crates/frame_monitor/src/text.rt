//! The text of a frame.
ghost use Rattle.std.specs.Prelude.{◌≡◌, ◌++◌, [], ◌∷◌, List, length, codes, string_bytes, IfOk, OnOk};
ghost use Rattle.std.specs.List.{list_any};
ghost use Rattle.ax25_frames.specs.FrameOctets.{information_of};
ghost use Rattle.frame_monitor.specs.MonitorText.{head_text, information_text, monitor_text, path_text, repeaters_text};
ghost use Rattle.frame_monitor.specs.MonitorText.{star};

use crate::clock::clock;
use crate::description::description;
use ax25_address::{Hop, Path};
use ax25_frames::{Frame, Kind};
use std::alloc::Global;
use tnc_base::OutOfMemory;

/// The text of a frame that was heard or sent after so many ticks of 10 ms, as
/// ` 1:Fm AAAA To BBBB Via CCCC* <UI pid=F0 Len=6 P=0 >[00:00:01]`, CR, its information and CR if there is any, and
/// NUL.
pub fn monitor_text(alloc: Global, frame: &Frame, ticks: u64) -> Result<Vec<u8>, OutOfMemory>
    ensures { IfOk result (λ text. text.items ≡ monitor_text ticks frame.now) }
{
    let mut text = head(alloc, frame, ticks)?;
    text.push(b'\r')?;
    push_information(&mut text, information_of(&frame.kind))?;
    text.push(0)?;
    Ok(text)
}

/// The line that stands before the information.
fn head(alloc: Global, frame: &Frame, ticks: u64) -> Result<Vec<u8>, OutOfMemory>
    ensures { IfOk result (λ text. text.items ≡ head_text ticks frame.now) }
{
    let path = path_line(alloc, &frame.path)?;
    let what = description(alloc, frame.path.role, &frame.kind)?;
    let mut text = Vec::new(alloc);
    text.extend_from_slice(path.as_bytes())?;
    text.push(b' ')?;
    text.extend_from_slice(what.as_bytes())?;
    text.push(b'[')?;
    text.extend_from_slice(&clock(ticks))?;
    text.push(b']')?;
    Ok(text)
}

/// From whom to whom, and by way of which repeaters.
fn path_line(alloc: Global, path: &Path) -> Result<String, OutOfMemory>
    ensures { IfOk result (λ text. string_bytes text ≡ path_text path.now) }
{
    let source = path.source.text();
    let dest = path.dest.text();
    let mut text = format!(in alloc; " 1:Fm {source} To {dest}")?;
    push_repeaters(&mut text, " Via ", path.repeaters.as_slice())?;
    Ok(text)
}

/// Appends repeaters, the first after these words and each other one after a comma.
fn push_repeaters(text: &mut String, words: &str, hops: &[Hop]) -> Result<(), OutOfMemory>
    ensures { OnOk result (string_bytes text.new ≡ string_bytes text.old ++ repeaters_text words.now hops.now) }
{
    let Some((hop, others)) = hops.split_first() else {
        return Ok(());
    };
    text.push_str(words)?;
    text.push_str(hop.call.text().as_str())?;
    text.push_str(star(hop, others))?;
    push_repeaters(text, ",", others)
}

/// A star after the last repeater that has repeated the frame.
fn star(hop: &Hop, others: &[Hop]) -> &'static str
    ensures { result.now ≡ star hop.now others.now }
{
    if hop.done && !any_repeated(others) {
        "*"
    } else {
        ""
    }
}

/// Whether any of these repeaters has repeated the frame.
fn any_repeated(hops: &[Hop]) -> bool
    ensures { result ≡ list_any (λ hop. hop.done) hops.now }
{
    hops.iter().any(|hop| hop.done)
}

/// The information of a frame.
fn information_of(kind: &Kind) -> &[u8]
    ensures { result.now ≡ information_of kind.now }
{
    match kind {
        Kind::Info { octets, .. } | Kind::Ui { octets, .. } | Kind::Other { octets, .. } =>
            octets.as_slice(),
        Kind::Super { .. } | Kind::Setup { .. } => &[],
    }
}

/// Appends information and CR, if there is any.
fn push_information(text: &mut Vec<u8>, octets: &[u8]) -> Result<(), OutOfMemory>
    ensures { OnOk result (text.new.items ≡ text.old.items ++ information_text octets.now) }
{
    if octets.is_empty() {
        return Ok(());
    }
    text.extend_from_slice(octets)?;
    text.push(b'\r')?;
    Ok(())
}
