//! The key of a transmitter on its line: the machine decides, and what it asks for is done on the line.
//!
//! No call takes memory, fails or waits but `release`, which waits for the last answers. Public clauses say what was
//! done as a list of events, the newest first.
ghost use Rattle.std.specs.Prelude.{◌≡◌, ◌≤◌, ◌++◌, ◌∷◌, [], ℕ, true, List, Option};
ghost use Rattle.keying.specs.declared.ending.Ending.TheVariants.{Over};
ghost use Rattle.keying.specs.declared.line.End.{End};
ghost use Rattle.keying.specs.declared.line.Try.TheVariants.{Refused};
ghost use Rattle.keying.specs.Calls.Call.{Turn as TurnCall, Tick, AfterWrite, AfterTry};
ghost use Rattle.keying.specs.Key.{is_free};
ghost use Rattle.key_port.specs.KeyCalls.{IsOver};
ghost use Rattle.key_port.specs.KeyEvents.{KeyEvent, Task, marks_of, lost_report, turn_reports, tick_report};
ghost use Rattle.key_port.specs.KeyEvents.{off_report};
ghost use Rattle.key_port.specs.KeyEvents.{tasks_of_next, tasks_of_ending, tasks_of_command};
ghost use Rattle.key_port.specs.KeyEvents.Task.{Connect, Open, Write, Tell};
ghost use Rattle.key_port.specs.KeySides.{port_of, reports_in, HasDone, GoesOn, DoesCall, DoesRelease, Closes};
ghost use Rattle.key_port.specs.KeyTasks.{IsDoing, DoesTasks, lines_given_up};

use crate::key_port::KeyPort;
use crate::key_records::KeyWrite;
use keying::{Command, Ending, Keying, Next, OffWhy, Report, Try, Turn, Why, Words};
use std::net::Net;
use std::sync::Wait;
use tnc_base::Sink;

/// The most octets that are read in a turn.
const PIECE: usize = 64;

/// What is reported of a call, in this order.
#[derive(Clone, Copy, Debug, PartialEq, Eq)]
pub struct KeyReports {
    /// The line is ready.
    pub ready: bool,
    /// The line was lost, as its reading told.
    pub lost: Option<Why>,
    /// The transmission was cut off.
    pub off: Option<Report>,
    /// The line was lost after that: a try or a command failed.
    pub failed: Option<Why>,
}

impl KeyReports {
    /// Nothing is reported.
    pub const NOTHING: KeyReports = KeyReports {
        ready: false,
        lost: None,
        off: None,
        failed: None,
    };
}

/// The machine of a key, and the port of its line.
#[derive(Drop)]
pub struct KeySide {
    machine: Keying,
    port: u16,
}

impl KeySide {
    /// Nothing was done yet. The line is to a port of 127.0.0.1.
    pub fn new(words: Words, port: u16) -> KeySide
        ensures done { HasDone words [] result }
        ensures port { port_of result ≡ port }
    {
        KeySide {
            machine: Keying::new(words),
            port,
        }
    }

    /// Whether a transmission may begin.
    pub fn is_free(&self) -> bool
        ensures { (words : Words) (keyed : List KeyEvent) → HasDone words keyed self.now
            → result ≡ is_free words (marks_of words keyed) }
    {
        self.machine.is_free()
    }

    /// A turn: reads the line, and connects, opens or releases if that is due.
    pub fn turn<R: Net, O: Sink, K: KeyPort<O>>(
        &mut self,
        rt: &R,
        key: &mut K,
        output: &O,
    ) -> KeyReports
        ensures turned { (words : Words) (octets : ℕ) (keyed : List KeyEvent) → HasDone words keyed self.old
            → (came : List ℕ) × (end : Option End) × DoesCall words octets (O.told output.now).written
            (TurnCall (K.time key.new) came end) keyed (reports_in result) self.new (K.told key.old) (K.told key.new) }
        ensures port { port_of self.new ≡ port_of self.old }
        ensures forward { K.time key.old ≤ K.time key.new }
    {
        let now = key.now();
        let mut buffer = [0; PIECE];
        let came = key.read(&mut buffer);
        let turn = self.machine.turn(now, &buffer[..came.count], came.end);
        hang_up_if(turn.dropped, key, output);
        let lost = self.do_next(rt, turn.next, key, output);
        reports_of_turn(turn, lost)
    }

    /// A tick whose samples are about to be written; `sounds` says whether one of them is not 0.
    pub fn tick<O: Sink, K: KeyPort<O>>(
        &mut self,
        sounds: bool,
        key: &mut K,
        output: &O,
    ) -> KeyReports
        ensures ticked { (words : Words) (octets : ℕ) (keyed : List KeyEvent) → HasDone words keyed self.old
            → DoesCall words octets (O.told output.now).written (Tick sounds) keyed (reports_in result) self.new
            (K.told key.old) (K.told key.new) }
        ensures port { port_of self.new ≡ port_of self.old }
        ensures time { K.time key.new ≡ K.time key.old }
    {
        let act = self.machine.tick(sounds);
        let lost = self.write_if(act.command, key, output);
        reports_of_tick(act.report, lost)
    }

    /// After the samples of a tick: `fault` says whether a write of the output or of the report has failed by now.
    pub fn written<O: Sink, K: KeyPort<O>>(
        &mut self,
        fault: bool,
        key: &mut K,
        output: &O,
    ) -> KeyReports
        ensures written { (words : Words) (octets : ℕ) (keyed : List KeyEvent) → HasDone words keyed self.old
            → DoesCall words octets (O.told output.now).written (AfterWrite fault) keyed (reports_in result) self.new
            (K.told key.old) (K.told key.new) }
        ensures port { port_of self.new ≡ port_of self.old }
        ensures time { K.time key.new ≡ K.time key.old }
    {
        let command = self.machine.written(fault);
        let lost = self.write_if(command, key, output);
        reports_of_tick(None, lost)
    }

    /// The end of the run: releases, tries one more connection if that is owed, and waits for the answers, for a second
    /// at most.
    pub fn release<R: Net + Wait, O: Sink, K: KeyPort<O>>(
        &mut self,
        rt: &R,
        key: &mut K,
        output: &O,
    )
        ensures released { (words : Words) (octets : ℕ) (keyed : List KeyEvent) → HasDone words keyed self.old
            → DoesRelease words octets (O.told output.now).written keyed self.new (K.told key.old) (K.told key.new) }
        ensures port { port_of self.new ≡ port_of self.old }
    {
        'asks: for _ in rt.forever() {
            if self.close(rt, key, output) {
                return;
            }
            key.rest();
        }
        unreachable!()
    }

    /// Asks once what is to be done at the end of the run, and does it. Answers whether the end is over.
    fn close<R: Net, O: Sink, K: KeyPort<O>>(&mut self, rt: &R, key: &mut K, output: &O) -> bool
        ensures closed { (words : Words) (octets : ℕ) (keyed : List KeyEvent) → HasDone words keyed self.old
            → GoesOn (λ new. Closes words octets keyed new × (result ≡ true → IsOver words new)) words octets
            (O.told output.now).written keyed self.new (K.told key.old) (K.told key.new) }
        ensures port { port_of self.new ≡ port_of self.old }
    {
        let now = key.now();
        let mut buffer = [0; PIECE];
        let came = key.read(&mut buffer);
        let ending = self.machine.release(now, &buffer[..came.count], came.end);
        hang_up_if(!self.machine.has_line(), key, output);
        self.do_next(rt, next_of(ending), key, output);
        is_over(ending)
    }

    /// Does what a turn asks for. Answers the loss that is to be reported.
    fn do_next<R: Net, O: Sink, K: KeyPort<O>>(
        &mut self,
        rt: &R,
        next: Next,
        key: &mut K,
        output: &O,
    ) -> Option<Why>
        ensures does { (words : Words) (octets : ℕ) (events : List KeyEvent)
            → IsDoing words (tasks_of_next next) events self.old.machine
            → DoesTasks words self.old.port octets (O.told output.now).written events
            (lost_report result) self.new.machine
            (K.told key.old) (K.told key.new) }
        ensures port { self.new.port ≡ self.old.port }
        ensures time { K.time key.new ≡ K.time key.old }
    {
        match next {
            Next::Rest => None,
            Next::ToConnect => self.connect(rt, key, output),
            Next::ToOpen => self.open(key, output),
            Next::ToRelease => self.write(Command::Release, key, output),
        }
    }

    /// Begins a connection, and writes its first release if it can be written at once.
    fn connect<R: Net, O: Sink, K: KeyPort<O>>(
        &mut self,
        rt: &R,
        key: &mut K,
        output: &O,
    ) -> Option<Why>
        ensures does { (words : Words) (octets : ℕ) (events : List KeyEvent) (tasks : List Task)
            → IsDoing words (Connect ∷ tasks) events self.old.machine
            → DoesTasks words self.old.port octets (O.told output.now).written events
            (lost_report result) self.new.machine
            (K.told key.old) (K.told key.new) }
        ensures port { self.new.port ≡ self.old.port }
        ensures time { K.time key.new ≡ K.time key.old }
    {
        match key.connect(rt, self.port) {
            Ok(()) => self.open(key, output),
            Err(_) => self.refuse(key, output),
        }
    }

    /// Writes the first release of a connection, if it can be written by now.
    fn open<O: Sink, K: KeyPort<O>>(&mut self, key: &mut K, output: &O) -> Option<Why>
        ensures does { (words : Words) (octets : ℕ) (events : List KeyEvent) (tasks : List Task)
            → IsDoing words (Open ∷ tasks) events self.old.machine
            → DoesTasks words self.old.port octets (O.told output.now).written events
            (lost_report result) self.new.machine
            (K.told key.old) (K.told key.new) }
        ensures port { self.new.port ≡ self.old.port }
        ensures time { K.time key.new ≡ K.time key.old }
    {
        match key.open(output) {
            KeyWrite::Whole => self.machine.tried(Try::Written),
            KeyWrite::NotYet => self.machine.tried(Try::NotYet),
            KeyWrite::Failed => self.refuse(key, output),
        }
    }

    /// After a try to connect, or to open a connection, that failed.
    fn refuse<O: Sink, K: KeyPort<O>>(&mut self, key: &mut K, _output: &O) -> Option<Why>
        ensures does { (words : Words) (octets : ℕ) (written : Option (List ℕ)) (events : List KeyEvent)
            (tasks : List Task) → IsDoing words (Tell (AfterTry Refused) ∷ tasks) events self.old.machine
            → DoesTasks words self.old.port octets written events (lost_report result) self.new.machine
            (K.told key.old) (K.told key.new) }
        ensures port { self.new.port ≡ self.old.port }
        ensures time { K.time key.new ≡ K.time key.old }
    {
        let lost = self.machine.tried(Try::Refused);
        key.hang_up();
        lost
    }

    /// Writes the command that a tick asks for, if it asks for one.
    fn write_if<O: Sink, K: KeyPort<O>>(
        &mut self,
        command: Option<Command>,
        key: &mut K,
        output: &O,
    ) -> Option<Why>
        ensures does { (words : Words) (octets : ℕ) (events : List KeyEvent)
            → IsDoing words (tasks_of_command command) events self.old.machine
            → DoesTasks words self.old.port octets (O.told output.now).written events
            (lost_report result) self.new.machine
            (K.told key.old) (K.told key.new) }
        ensures port { self.new.port ≡ self.old.port }
        ensures time { K.time key.new ≡ K.time key.old }
    {
        match command {
            None => None,
            Some(command) => self.write(command, key, output),
        }
    }

    /// Writes a command. If it is not written whole, the line is lost.
    fn write<O: Sink, K: KeyPort<O>>(
        &mut self,
        command: Command,
        key: &mut K,
        output: &O,
    ) -> Option<Why>
        ensures does { (words : Words) (octets : ℕ) (events : List KeyEvent) (tasks : List Task)
            → IsDoing words (Write command ∷ tasks) events self.old.machine
            → DoesTasks words self.old.port octets (O.told output.now).written events
            (lost_report result) self.new.machine
            (K.told key.old) (K.told key.new) }
        ensures port { self.new.port ≡ self.old.port }
        ensures time { K.time key.new ≡ K.time key.old }
    {
        match key.write(command, output) {
            Ok(()) => None,
            Err(_) => {
                let lost = self.machine.command_failed();
                key.hang_up();
                lost
            }
        }
    }
}

/// What the end of the run asks for, as what a turn asks for.
fn next_of(ending: Ending) -> Next
    ensures { tasks_of_next result ≡ tasks_of_ending ending }
{
    match ending {
        Ending::ConnectNow => Next::ToConnect,
        Ending::OpenNow => Next::ToOpen,
        Ending::ReleaseNow => Next::ToRelease,
        Ending::Wait | Ending::Over => Next::Rest,
    }
}

/// Gives up the connection, if it is lost.
fn hang_up_if<O: Sink, K: KeyPort<O>>(lost: bool, key: &mut K, _output: &O)
    ensures lines { (K.told key.new).lines ≡ lines_given_up lost (K.told key.old).lines }
    ensures time { K.time key.new ≡ K.time key.old }
    ensures faults { (K.told key.new).faults ≡ (K.told key.old).faults }
{
    if lost {
        key.hang_up();
    }
}

fn is_over(ending: Ending) -> bool
    ensures { result ≡ true → ending ≡ Over }
{
    match ending {
        Ending::Over => true,
        Ending::ConnectNow | Ending::OpenNow | Ending::ReleaseNow | Ending::Wait => false,
    }
}

// ---- what is reported

/// What is reported of a turn after which a connection was lost so.
fn reports_of_turn(turn: Turn, failed: Option<Why>) -> KeyReports
    ensures { reports_in result ≡ turn_reports turn ++ lost_report failed }
{
    KeyReports {
        ready: turn.ready,
        lost: turn.lost,
        off: off_line(turn.next),
        failed,
    }
}

/// What is reported of a tick after which a connection was lost so.
fn reports_of_tick(report: Option<Report>, failed: Option<Why>) -> KeyReports
    ensures { reports_in result ≡ tick_report report ++ lost_report failed }
{
    KeyReports {
        off: report,
        failed,
        ..KeyReports::NOTHING
    }
}

/// The line of a release for want of sound.
fn off_line(next: Next) -> Option<Report>
    ensures { tick_report result ≡ off_report next }
{
    match next {
        Next::ToRelease => Some(Report::Off(OffWhy::Sound)),
        Next::Rest => None,
        Next::ToConnect => None,
        Next::ToOpen => None,
    }
}
