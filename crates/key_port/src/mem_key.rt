//! A line in memory: its calls go as a script says, and it tells all that was done with it.
ghost use Rattle.std.specs.Prelude.{◌≡◌, ◌≢◌, ◌≤◌, ◌<◌, ◌++◌, ℕ, ◌⊎◌, true, false, List, [], ◌∷◌, Option, Some, None};
ghost use Rattle.std.specs.Prelude.{length, take, min, not};
ghost use Rattle.std.specs.Prelude.{option_map, IsErr, OnOk, OnErr};
ghost use Rattle.tnc_base.specs.Faults.{HasRisen, next_count};
ghost use Rattle.keying.specs.declared.line.End.TheVariants.{Closed, Fault};
ghost use Rattle.key_port.specs.declared.key_records.KeyWrite.TheVariants.{Whole, NotYet, Failed as NotWritten};
ghost use Rattle.key_port.specs.KeyLines.{KeyLine, new_line, with_last, is_open, after_write, after_read, after_drop};
ghost use Rattle.key_port.specs.KeyLines.{after_connect};
ghost use Rattle.key_port.specs.KeyScripts.{KeyPortView, new_key, scripted, later};

use crate::key_port::KeyPort;
use crate::key_records::{KeyCame, KeyStep, KeyWrite};
use keying::{Command, End};
use std::alloc::Global;
use std::marker::Model;
use std::net::Net;
use tnc_base::{Failed, MemSink, Octets, OutOfMemory};

/// How a call of `connect`, `read`, `open` or `write` goes.
#[derive(Debug, Drop)]
pub enum KeyOutcome {
    /// It fails.
    Fails,
    /// The first command comes before the connection stands; a later one fails.
    IsEarly,
    /// A read finds that the daemon has closed the connection.
    Ends,
    /// A read brings these octets, as far as the buffer holds them.
    Brings {
        /// The octets.
        octets: Octets,
    },
}

/// A connection.
#[derive(Debug, Drop)]
pub struct LineRecord {
    /// Its port.
    pub port: u16,
    /// What was written and what came, in order.
    pub steps: Vec<KeyStep>,
    /// The daemon was seen to have closed it.
    pub ended: bool,
    /// It was given up.
    pub dropped: bool,
}

impl Model for LineRecord {
    ghost use Rattle.key_port.specs.KeyLines.{KeyLine};

    ghost Value = { KeyLine };

    ghost view = { λ inside. record {
      port = inside.port;
      steps = inside.steps.items;
      ended = inside.ended;
      dropped = inside.dropped;
    } };
}

impl LineRecord {
    fn new(alloc: Global, port: u16) -> LineRecord
        ensures { result ≡ new_line port }
    {
        LineRecord {
            port,
            steps: Vec::new(alloc),
            ended: false,
            dropped: false,
        }
    }

    fn is_open(&self) -> bool
        ensures { result ≡ not self.now.dropped }
    {
        !self.dropped
    }

    fn note_drop(&mut self)
        ensures { self.new ≡ after_drop self.old }
    {
        self.dropped = true;
    }

    fn note_end(&mut self)
        ensures { (now : ℕ) → self.new ≡ after_read now [] (Some Closed) self.old }
    {
        self.ended = true;
    }

    fn note_write(&mut self, command: Command, had: usize) -> Result<(), OutOfMemory>
        ensures written { OnOk result (self.new ≡ after_write command had self.old) }
        ensures memory { OnErr result (self.new ≡ self.old) }
    {
        Ok(self.steps.push(KeyStep::Wrote { command, had })?)
    }

    fn note_read(&mut self, alloc: Global, now: u64, octets: &[u8]) -> Result<(), OutOfMemory>
        requires { 0 < length octets.now }
        ensures read { OnOk result (self.new ≡ after_read now octets.now None self.old) }
        ensures memory { OnErr result (self.new ≡ self.old) }
    {
        let octets = Octets::from_slice(alloc, octets)?;
        Ok(self.steps.push(KeyStep::Read { now, octets })?)
    }
}

/// A line over a script.
#[derive(Drop)]
pub struct MemKeyPort {
    alloc: Global,
    script: Vec<(u64, KeyOutcome)>,
    pace: u64,
    calls: u64,
    time: u64,
    faults: u64,
    lines: Vec<LineRecord>,
}

impl Model for MemKeyPort {
    ghost use Rattle.key_port.specs.KeyScripts.{KeyPortView};

    ghost Value = { KeyPortView };

    ghost view = { λ s. record {
      script = s.script.items;
      pace = s.pace;
      calls = s.calls;
      time = s.time;
      faults = s.faults;
      lines = s.lines.items;
    } };
}

impl MemKeyPort {
    /// A line whose calls of `connect`, `read`, `open` and `write` go as the script says, by their numbers, counted together
    /// from 0. A call whose number is not there goes well, and a read then brings nothing. Each look at the clock finds
    /// it `pace` ms later.
    pub fn new(alloc: Global, script: Vec<(u64, KeyOutcome)>, pace: u64) -> MemKeyPort
        ensures { result ≡ new_key script.items pace }
    {
        MemKeyPort {
            alloc,
            script,
            pace,
            calls: 0,
            time: 0,
            faults: 0,
            lines: Vec::new(alloc),
        }
    }

    /// The connections so far.
    pub fn lines(&self) -> &[LineRecord]
        ensures { result.now ≡ self.now.lines }
    {
        &self.lines
    }

    /// Counts a call.
    fn begin(&mut self)
        ensures { self.new ≡ record self.old { calls = next_count self.old.calls } }
    {
        self.calls = self.calls.saturating_add(1);
    }

    /// Counts a fault.
    fn fail(&mut self)
        ensures { self.new ≡ record self.old { faults = next_count self.old.faults } }
    {
        self.faults = self.faults.saturating_add(1);
    }

    /// Counts a call that writes, and answers what it comes to.
    fn begin_write(&mut self) -> KeyWrite
        ensures open { result ≡ Whole → is_open self.old.lines ≡ true }
        ensures kept { self.new ≡ record self.old { calls = next_count self.old.calls } }
    {
        let how = written_as(
            scripted(&self.script, self.calls),
            is_last_open(&self.lines),
        );
        self.begin();
        how
    }

    /// Reads as the script says, if there is a connection. Without memory to tell of it, the read fails.
    fn bring(&mut self, buffer: &mut [u8]) -> KeyCame
        requires room { 0 < length buffer.old }
        ensures bound { result.count ≤ length buffer.new }
        ensures told { self.new ≡ record self.old {
          lines = with_last (after_read self.old.time (take result.count buffer.new) result.end) self.old.lines;
        } }
        ensures only { is_open self.old.lines ≡ false → (result.count ≡ 0) × (result.end ≡ None) }
    {
        if !is_last_open(&self.lines) {
            return NOTHING;
        }
        let came = came_by(scripted(&self.script, self.calls), buffer);
        note_came(self.alloc, &mut self.lines, self.time, buffer, came)
    }
}

impl KeyPort<MemSink> for MemKeyPort {
    ghost told = { λ s. record { lines = Some s.lines; faults = s.faults } };

    ghost time = { λ s. s.time };

    fn now(&mut self) -> u64
        ensures passed { self.new ≡ record self.old { time = later self.old.pace self.old.time } }
        ensures time { result ≡ self.new.time }
        ensures forward { self.old.time ≤ self.new.time }
    {
        self.time = self.time.saturating_add(self.pace);
        self.time
    }

    fn connect<R: Net>(&mut self, _rt: &R, port: u16) -> Result<(), Failed>
        ensures fails { scripted self.old.calls self.old.script ≡ Some KeyOutcome.Fails → IsErr result }
        ensures begun { OnOk result (self.new ≡ record self.old {
          calls = next_count self.old.calls;
          lines = after_connect port self.old.lines;
        }) }
        ensures refused { OnErr result (self.new ≡ record self.old {
          calls = next_count self.old.calls;
          faults = next_count self.old.faults;
          lines = with_last after_drop self.old.lines;
        }) }
    {
        drop_last(&mut self.lines);
        let fails = matches!(scripted(&self.script, self.calls), Some(KeyOutcome::Fails));
        self.begin();
        if fails || self.lines.push(LineRecord::new(self.alloc, port)).is_err() {
            self.fail();
            return Err(Failed);
        }
        Ok(())
    }

    fn read(&mut self, buffer: &mut [u8]) -> KeyCame {
        let came = self.bring(buffer);
        self.begin();
        if came.end == Some(End::Fault) {
            self.fail();
        }
        came
    }

    fn open(&mut self, output: &MemSink) -> KeyWrite {
        let how = self.begin_write();
        if how == KeyWrite::Whole
            && write_last(&mut self.lines, Command::Release, output.written().len()).is_err()
        {
            self.fail();
            return KeyWrite::Failed;
        }
        if how == KeyWrite::Failed {
            self.fail();
        }
        how
    }

    fn write(&mut self, command: Command, output: &MemSink) -> Result<(), Failed> {
        let how = self.begin_write();
        let had = output.written().len();
        if how != KeyWrite::Whole || write_last(&mut self.lines, command, had).is_err() {
            self.fail();
            return Err(Failed);
        }
        Ok(())
    }

    fn hang_up(&mut self)
        ensures dropped { self.new ≡ record self.old { lines = with_last after_drop self.old.lines } }
    {
        drop_last(&mut self.lines);
    }

    fn rest(&mut self)
        ensures same { self.new ≡ self.old }
    {}
}

/// A read that brings nothing.
const NOTHING: KeyCame = KeyCame {
    count: 0,
    end: None,
};

/// A read that fails.
const FAULT: KeyCame = KeyCame {
    count: 0,
    end: Some(End::Fault),
};

/// How the call of a number goes, if the script says so.
fn scripted(script: &[(u64, KeyOutcome)], call: u64) -> Option<&KeyOutcome>
    ensures { option_map (λ outcome. outcome.now) result ≡ scripted call script.now }
{
    for entry in script {
        if entry.0 == call {
            return Some(&entry.1);
        }
    }
    None
}

/// What a read brings that goes so.
fn came_by(outcome: Option<&KeyOutcome>, buffer: &mut [u8]) -> KeyCame
    ensures bound { result.count ≤ length buffer.new }
    ensures alone { (result.count ≡ 0) ⊎ (result.end ≡ None) }
{
    match outcome {
        Some(KeyOutcome::Brings { octets }) => KeyCame {
            count: fill(buffer, octets.as_slice()),
            end: None,
        },
        Some(KeyOutcome::Fails) => FAULT,
        Some(KeyOutcome::Ends) => KeyCame {
            count: 0,
            end: Some(End::Closed),
        },
        Some(KeyOutcome::IsEarly) | None => NOTHING,
    }
}

/// Puts the first octets at the front of the buffer, as far as it holds them.
fn fill(buffer: &mut [u8], octets: &[u8]) -> usize
    ensures bound { result ≡ min (length buffer.old) (length octets.now) }
    ensures front { take result buffer.new ≡ take result octets.now }
    ensures size { length buffer.new ≡ length buffer.old }
{
    let count = buffer.len().min(octets.len());
    buffer[..count].copy_from_slice(&octets[..count]);
    count
}

/// What a write comes to that goes so.
fn written_as(outcome: Option<&KeyOutcome>, stands: bool) -> KeyWrite
    ensures { result ≡ Whole → stands ≡ true }
{
    if !stands {
        return KeyWrite::Failed;
    }
    match outcome {
        Some(KeyOutcome::Fails) | Some(KeyOutcome::Ends) => KeyWrite::Failed,
        Some(KeyOutcome::IsEarly) => KeyWrite::NotYet,
        Some(KeyOutcome::Brings { .. }) | None => KeyWrite::Whole,
    }
}

// ---- the last connection

/// Whether there is a connection.
fn is_last_open(lines: &Vec<LineRecord>) -> bool
    ensures { result ≡ is_open lines.now.items }
{
    let count = lines.len();
    count > 0 && lines[count - 1].is_open()
}

fn drop_last(lines: &mut Vec<LineRecord>)
    ensures { lines.new.items ≡ with_last after_drop lines.old.items }
{
    let count = lines.len();
    if count > 0 {
        lines[count - 1].note_drop();
    }
}

fn end_last(lines: &mut Vec<LineRecord>, _now: u64)
    ensures { lines.new.items ≡ with_last (after_read _now [] (Some Closed)) lines.old.items }
{
    let count = lines.len();
    if count > 0 {
        lines[count - 1].note_end();
    }
}

fn write_last(lines: &mut Vec<LineRecord>, command: Command, had: usize) -> Result<(), OutOfMemory>
    ensures written { OnOk result (lines.new.items ≡ with_last (after_write command had) lines.old.items) }
    ensures memory { OnErr result (lines.new.items ≡ lines.old.items) }
{
    let count = lines.len();
    if count == 0 {
        return Ok(());
    }
    lines[count - 1].note_write(command, had)
}

fn read_last(
    alloc: Global,
    lines: &mut Vec<LineRecord>,
    now: u64,
    octets: &[u8],
) -> Result<(), OutOfMemory>
    requires { 0 < length octets.now }
    ensures read { OnOk result (lines.new.items ≡ with_last (after_read now octets.now None) lines.old.items) }
    ensures memory { OnErr result (lines.new.items ≡ lines.old.items) }
{
    let count = lines.len();
    if count == 0 {
        return Ok(());
    }
    lines[count - 1].note_read(alloc, now, octets)
}

/// Tells what a read brought. Without memory for that, the read fails.
fn note_came(
    alloc: Global,
    lines: &mut Vec<LineRecord>,
    now: u64,
    buffer: &[u8],
    came: KeyCame,
) -> KeyCame
    requires bound { came.count ≤ length buffer.now }
    requires alone { (came.count ≡ 0) ⊎ (came.end ≡ None) }
    ensures bound { result.count ≤ length buffer.now }
    ensures told { lines.new.items
        ≡ with_last (after_read now (take result.count buffer.now) result.end) lines.old.items }
{
    match came.end {
        Some(End::Closed) => {
            end_last(lines, now);
            came
        }
        Some(End::Fault) => FAULT,
        None => note_octets(alloc, lines, now, buffer, came.count),
    }
}

/// Tells of so many octets of the buffer, if there are some. Without memory for that, the read fails.
fn note_octets(
    alloc: Global,
    lines: &mut Vec<LineRecord>,
    now: u64,
    buffer: &[u8],
    count: usize,
) -> KeyCame
    requires { count ≤ length buffer.now }
    ensures bound { result.count ≤ count }
    ensures told { lines.new.items
        ≡ with_last (after_read now (take result.count buffer.now) result.end) lines.old.items }
{
    if count == 0 {
        return NOTHING;
    }
    match read_last(alloc, lines, now, &buffer[..count]) {
        Ok(()) => KeyCame { count, end: None },
        Err(_) => FAULT,
    }
}
