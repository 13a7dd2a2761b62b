//! The line to rigctld, the daemon of hamlib that turns a transmitter on and off.
//!
//! The calls are made in this order: `connect`, `open` again and again until it is not early, and then in each turn
//! `now`, `read` and the `write`s, until `hang_up`.
//! No call waits but `rest`. Like a stream, the line counts its faults, so that nobody can blame it for a failure of
//! its own, and it tells what was done with it if it knows it. A command is written while the output is lent. So what
//! is told has commands and samples in one order, which no caller can turn.
ghost use Rattle.std.specs.Prelude.{◌≡◌, ◌≢◌, ℕ, ◌≤◌, ◌<◌, ◌++◌, true, false, List, [], ◌∷◌, Some, None};
ghost use Rattle.std.specs.Prelude.{length};
ghost use Rattle.std.specs.Prelude.{take, option_map, OnOk, OnErr};
ghost use Rattle.tnc_base.specs.Faults.{HasRisen};
ghost use Rattle.keying.specs.declared.command.Command.TheVariants.{Release};
ghost use Rattle.keying.specs.declared.line.End.TheVariants.{Fault};
ghost use Rattle.key_port.specs.declared.key_records.KeyWrite.TheVariants.{Whole, NotYet, Failed as NotWritten};
ghost use Rattle.key_port.specs.KeyLines.{KeyLine, LineTold, with_last, is_open, after_write, after_read, after_drop};
ghost use Rattle.key_port.specs.KeyLines.{after_connect};

use crate::key_records::{KeyCame, KeyWrite};
use keying::Command;
use std::net::Net;
use tnc_base::{Failed, Sink};

/// Where a transmitter is turned on and off, beside an output of this kind.
pub trait KeyPort<O: Sink> {
    /// The connections so far, if the object tells them, and how often a call has failed.
    ghost told: { Self → LineTold };

    /// What the clock last said, in ms.
    ghost time: { Self → ℕ };

    /// Looks at the clock, which counts milliseconds from some start and never goes back.
    fn now(&mut self) -> u64
        ensures time { result ≡ time self.new }
        ensures forward { time self.old ≤ time self.new }
        ensures told { told self.new ≡ told self.old };

    /// Begins a connection to a port of 127.0.0.1, in place of the one that is there. It need not stand yet.
    fn connect<R: Net>(&mut self, rt: &R, port: u16) -> Result<(), Failed>
        ensures begun { OnOk result ((told self.new).lines ≡ option_map (after_connect port) (told self.old).lines) }
        ensures refused { OnErr result ((told self.new).lines ≡ option_map (with_last after_drop) (told self.old).lines) }
        ensures time { time self.new ≡ time self.old }
        ensures faultless { OnOk result ((told self.new).faults ≡ (told self.old).faults) }
        ensures failed { OnErr result (HasRisen (told self.old).faults (told self.new).faults) };

    /// Reads what has come, up to a buffer that has room.
    fn read(&mut self, buffer: &mut [u8]) -> KeyCame
        requires room { 0 < length buffer.old }
        ensures bound { result.count ≤ length buffer.new }
        ensures told { (told self.new).lines ≡ option_map (with_last (after_read (time self.old)
            (take result.count buffer.new) result.end)) (told self.old).lines }
        ensures only { (was : List KeyLine) → (told self.old).lines ≡ Some was → is_open was ≡ false
            → (result.count ≡ 0) × (result.end ≡ None) }
        ensures time { time self.new ≡ time self.old }
        ensures faultless { result.end ≢ Some Fault → (told self.new).faults ≡ (told self.old).faults }
        ensures failed { result.end ≡ Some Fault → HasRisen (told self.old).faults (told self.new).faults };

    /// Writes the first command of a connection, a release, while it is lent the output. The connection need not stand
    /// yet, and then the command is early.
    fn open(&mut self, output: &O) -> KeyWrite
        ensures told { (had : List ℕ) → (O.told output.now).written ≡ Some had → result ≡ Whole
            → (told self.new).lines ≡ option_map (with_last (after_write Release (length had))) (told self.old).lines }
        ensures only { (was : List KeyLine) → (told self.old).lines ≡ Some was → result ≡ Whole → is_open was ≡ true }
        ensures unwritten { result ≢ Whole → (told self.new).lines ≡ (told self.old).lines }
        ensures time { time self.new ≡ time self.old }
        ensures faultless { result ≢ NotWritten → (told self.new).faults ≡ (told self.old).faults }
        ensures failed { result ≡ NotWritten → HasRisen (told self.old).faults (told self.new).faults };

    /// Writes a later command, while it is lent the output.
    fn write(&mut self, command: Command, output: &O) -> Result<(), Failed>
        ensures told { (had : List ℕ) → (O.told output.now).written ≡ Some had → OnOk result
            ((told self.new).lines ≡ option_map (with_last (after_write command (length had))) (told self.old).lines) }
        ensures only { (was : List KeyLine) → (told self.old).lines ≡ Some was → OnOk result (is_open was ≡ true) }
        ensures unwritten { OnErr result ((told self.new).lines ≡ (told self.old).lines) }
        ensures time { time self.new ≡ time self.old }
        ensures faultless { OnOk result ((told self.new).faults ≡ (told self.old).faults) }
        ensures failed { OnErr result (HasRisen (told self.old).faults (told self.new).faults) };

    /// Gives up the connection, if there is one.
    fn hang_up(&mut self)
        ensures told { (told self.new).lines ≡ option_map (with_last after_drop) (told self.old).lines }
        ensures time { time self.new ≡ time self.old }
        ensures faults { (told self.new).faults ≡ (told self.old).faults };

    /// Waits for a few milliseconds.
    fn rest(&mut self)
        ensures told { told self.new ≡ told self.old }
        ensures time { time self.new ≡ time self.old };
}
