//! The stations that were heard last.
ghost use Rattle.std.specs.Prelude.{◌≡◌, ◌++◌, codes, option_map, string_bytes, IfOk, OnOk};
ghost use Rattle.frame_monitor.specs.HeardStations.{first_heard, heard_of, heard_text, hearing_station, hours_text, is_of_call};
ghost use Rattle.frame_monitor.specs.HeardStations.{others_heard, time_text, zero_before};

use crate::clock::two_digits;
use ax25_address::Call;
use std::alloc::Global;
use tnc_base::OutOfMemory;

/// How many stations are kept.
const MOST_HEARD: usize = 20;

/// A station that was heard, and how many ticks of 10 ms had been made then.
#[derive(Clone, Copy, Debug)]
pub struct HeardStation {
    /// Its call.
    pub call: Call,
    /// When it was heard first, since it is kept.
    pub first: u64,
    /// When it was heard last.
    pub last: u64,
}

/// A frame of a station is heard after so many ticks: the station stands at the front of those that are kept, and a
/// 21st is forgotten. After want of memory the list may be short of the station.
pub fn hear_station(
    heard: &mut Vec<HeardStation>,
    call: &Call,
    ticks: u64,
) -> Result<(), OutOfMemory>
    ensures { OnOk result (heard.new.items ≡ hearing_station call.now ticks heard.old.items) }
{
    let first = first_heard(heard, call, ticks);
    remove_station(heard, call);
    let station = HeardStation {
        call: *call,
        first,
        last: ticks,
    };
    heard.insert(0, station)?;
    heard.truncate(MOST_HEARD);
    Ok(())
}

/// When a station that is heard now was heard first.
fn first_heard(heard: &[HeardStation], call: &Call, ticks: u64) -> u64
    ensures { result ≡ first_heard ticks (heard_of call.now heard.now) }
{
    match heard_of(heard, call) {
        Some(station) => station.first,
        None => ticks,
    }
}

/// The station of a call, if it is kept.
fn heard_of<'a>(heard: &'a [HeardStation], call: &Call) -> Option<&'a HeardStation>
    ensures { option_map (λ station. station.now) result ≡ heard_of call.now heard.now }
{
    heard.iter().find(|station| is_of_call(station, call))
}

/// Removes the station of a call.
fn remove_station(heard: &mut Vec<HeardStation>, call: &Call)
    ensures { heard.new.items ≡ others_heard call.now heard.old.items }
{
    heard.retain(|station| !is_of_call(station, call));
}

fn is_of_call(station: &HeardStation, call: &Call) -> bool
    ensures { result ≡ is_of_call call.now station.now }
{
    station.call == *call
}

/// A station that was heard in words: its call, when it was heard first and when last, as
/// `AAAA-7 00:01:02  00:05:09`, and NUL.
pub fn heard_text(alloc: Global, station: &HeardStation) -> Result<Vec<u8>, OutOfMemory>
    ensures { IfOk result (λ text. text.items ≡ heard_text station.now) }
{
    let call = station.call.text();
    let first = time_text(alloc, station.first)?;
    let last = time_text(alloc, station.last)?;
    let mut text = Vec::new(alloc);
    text.extend_from_slice(call.as_str().as_bytes())?;
    text.push(b' ')?;
    text.extend_from_slice(&first)?;
    text.extend_from_slice(b"  ")?;
    text.extend_from_slice(&last)?;
    text.push(0)?;
    Ok(text)
}

/// The time since the start, as `hh:mm:ss`. The hours go on after a day.
fn time_text(alloc: Global, ticks: u64) -> Result<Vec<u8>, OutOfMemory>
    ensures { IfOk result (λ text. text.items ≡ time_text ticks) }
{
    let hours = hours_text(alloc, ticks / 360_000)?;
    let minutes = two_digits((ticks / 6000 % 60) as u8);
    let seconds = two_digits((ticks / 100 % 60) as u8);
    let mut text = Vec::new(alloc);
    text.extend_from_slice(hours.as_bytes())?;
    text.push(b':')?;
    text.extend_from_slice(&minutes)?;
    text.push(b':')?;
    text.extend_from_slice(&seconds)?;
    Ok(text)
}

/// Hours in two digits at least.
fn hours_text(alloc: Global, hours: u64) -> Result<String, OutOfMemory>
    ensures { IfOk result (λ text. string_bytes text ≡ hours_text hours) }
{
    let zero = zero_before(hours);
    Ok(format!(in alloc; "{zero}{hours}")?)
}

fn zero_before(hours: u64) -> &'static str
    ensures { result.now ≡ zero_before hours }
{
    if hours < 10 { "0" } else { "" }
}
