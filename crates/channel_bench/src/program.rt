//! A host program of the bench: what it knows, by what it did and was told.
ghost use Rattle.std.specs.Prelude.{◌≡◌, ◌≤◌, nat_lt, if◌then◌else◌, length, take, drop, option_map, IfOk, IfSome};
ghost use Rattle.std.specs.Prelude.{◌++◌, OnOk, OnErr, true};

use crate::report::SetUp;
use agwpe_port::AgwMessage;
use station::Memory;
use std::alloc::Global;
use std::marker::Model;
use std::mem;
use tnc_base::OutOfMemory;

/// The most octets of a message of data.
const MOST_OCTETS: usize = 256;

/// A set-up that runs.
#[derive(Drop)]
pub(crate) struct Running {
    given: Vec<u8>,
    got: Vec<u8>,
}

impl Model for Running {
    ghost use Rattle.channel_bench.specs.declared.report.SetUp.{SetUp};

    ghost Value = { SetUp };

    ghost view = { λ r. record { given = r.given.items; got = r.got.items } };
}

/// A host program, connected by AGWPE.
#[derive(Drop)]
pub(crate) struct Program {
    alloc: Global,
    ended: Vec<SetUp>,
    running: Option<Running>,
    asked: bool,
    calls: bool,
    told: bool,
}

impl Model for Program {
    ghost use Rattle.channel_bench.specs.HostProgram.{ProgramState};

    ghost Value = { ProgramState };

    ghost view = { λ p. record {
      ended = p.ended.items;
      running = p.running;
      asked = p.asked;
      calls = p.calls;
      told = p.told;
    } };
}

impl Program {
    ghost use Rattle.channel_bench.specs.HostProgram.{new_program, told, told_all, opening, getting, closing};
    ghost use Rattle.channel_bench.specs.HostProgram.{next_piece, giving, has_all, asking, waiting, calling};
    ghost use Rattle.channel_bench.specs.HostProgram.{set_ups_of};

    /// No set-up has begun.
    pub(crate) fn new(alloc: Global) -> Program
        ensures { result ≡ new_program }
    {
        Program {
            alloc,
            ended: Vec::new(alloc),
            running: None,
            asked: false,
            calls: false,
            told: false,
        }
    }

    /// It is told a message.
    fn hear(&mut self, memory: &mut Memory, message: &AgwMessage) -> Result<(), OutOfMemory>
        ensures heard { OnOk result (self.new ≡ told message.now self.old) }
        ensures wanted { OnErr result (memory.new.refused ≡ true) }
    {
        match message.kind {
            b'C' => self.open(memory),
            b'D' => self.get(memory, message.body.as_slice()),
            b'd' => self.close(memory),
            _ => Ok(()),
        }
    }

    /// It is told messages, one after another.
    pub(crate) fn hear_all(
        &mut self,
        memory: &mut Memory,
        messages: &[AgwMessage],
    ) -> Result<(), OutOfMemory>
        ensures heard { OnOk result (self.new ≡ told_all messages.now self.old) }
        ensures wanted { OnErr result (memory.new.refused ≡ true) }
    {
        for message in messages {
            self.hear(memory, message)?;
        }
        Ok(())
    }

    /// A set-up begins.
    fn open(&mut self, memory: &mut Memory) -> Result<(), OutOfMemory>
        ensures opens { OnOk result (self.new ≡ opening self.old) }
        ensures wanted { OnErr result (memory.new.refused ≡ true) }
    {
        self.end(memory)?;
        self.running = Some(Running {
            given: Vec::new(self.alloc),
            got: Vec::new(self.alloc),
        });
        self.asked = false;
        Ok(())
    }

    /// Data comes.
    fn get(&mut self, memory: &mut Memory, octets: &[u8]) -> Result<(), OutOfMemory>
        ensures gets { OnOk result (self.new ≡ getting octets.now self.old) }
        ensures wanted { OnErr result (memory.new.refused ≡ true) }
    {
        match &mut self.running {
            Some(running) => {
                extend(memory, &mut running.got, octets)?;
                Ok(())
            }
            None => Ok(()),
        }
    }

    /// The set-up ends.
    fn close(&mut self, memory: &mut Memory) -> Result<(), OutOfMemory>
        ensures closes { OnOk result (self.new ≡ closing self.old) }
        ensures wanted { OnErr result (memory.new.refused ≡ true) }
    {
        self.end(memory)?;
        if !self.asked {
            self.calls = true;
        }
        self.told = true;
        Ok(())
    }

    /// Whatever runs has ended.
    fn end(&mut self, memory: &mut Memory) -> Result<(), OutOfMemory>
        ensures ends { OnOk result (self.new ≡ record self.old { ended = set_ups_of self.old; running = None }) }
        ensures wanted { OnErr result (memory.new.refused ≡ true) }
    {
        match self.running.take() {
            Some(running) => {
                let set_up = set_up_of(memory, &running)?;
                memory.push(&mut self.ended, set_up)?;
                Ok(())
            }
            None => Ok(()),
        }
    }

    /// The next piece of the text, if the set-up that runs has not given all of it.
    pub(crate) fn next_piece<'a>(&self, text: &'a [u8]) -> Option<&'a [u8]>
        ensures piece { option_map (λ piece. piece.now) result ≡ next_piece text.now self.now.running }
        ensures most { IfSome result (λ piece. length piece.now ≤ 256) }
    {
        match &self.running {
            Some(running) => piece_after(running.given.len(), text),
            None => None,
        }
    }

    /// A piece is given.
    pub(crate) fn give(&mut self, memory: &mut Memory, piece: &[u8]) -> Result<(), OutOfMemory>
        ensures gives { OnOk result (self.new ≡ giving piece.now self.old) }
        ensures wanted { OnErr result (memory.new.refused ≡ true) }
    {
        match &mut self.running {
            Some(running) => {
                extend(memory, &mut running.given, piece)?;
                Ok(())
            }
            None => Ok(()),
        }
    }

    /// A set-up runs in which so many octets were given and as many came.
    pub(crate) fn has_all(&self, count: usize) -> bool
        ensures { result ≡ has_all count self.now }
    {
        match &self.running {
            Some(running) => running.given.len() == count && running.got.len() == count,
            None => false,
        }
    }

    /// It has asked for the end of the set-up.
    pub(crate) fn asked(&self) -> bool
        ensures { result ≡ self.now.asked }
    {
        self.asked
    }

    /// It is to call again.
    pub(crate) fn calls(&self) -> bool
        ensures { result ≡ self.now.calls }
    {
        self.calls
    }

    /// It was told of an end since A last asked for one.
    pub(crate) fn told(&self) -> bool
        ensures { result ≡ self.now.told }
    {
        self.told
    }

    /// It asks for the end of the set-up.
    pub(crate) fn ask(&mut self)
        ensures { self.new ≡ asking self.old }
    {
        self.asked = true;
        self.told = false;
    }

    /// Its partner asks for the end of the set-up.
    pub(crate) fn wait(&mut self)
        ensures { self.new ≡ waiting self.old }
    {
        self.told = false;
    }

    /// It calls again.
    pub(crate) fn call(&mut self)
        ensures { self.new ≡ calling self.old }
    {
        self.calls = false;
    }

    /// All set-ups, in order. It then knows of none.
    pub(crate) fn take_set_ups(&mut self, memory: &mut Memory) -> Result<Vec<SetUp>, OutOfMemory>
        ensures set_ups { IfOk result (λ set_ups. set_ups.items ≡ set_ups_of self.old) }
        ensures wanted { OnErr result (memory.new.refused ≡ true) }
    {
        self.end(memory)?;
        let empty = Vec::new(self.alloc);
        Ok(mem::replace(&mut self.ended, empty))
    }
}

/// The next piece of a text of which so much is given.
fn piece_after(given: usize, text: &[u8]) -> Option<&[u8]>
    ensures piece { option_map (λ piece. piece.now) result
        ≡ (if nat_lt given (length text.now) then Some (take 256 (drop given text.now)) else None) }
    ensures most { IfSome result (λ piece. length piece.now ≤ 256) }
{
    if given >= text.len() {
        return None;
    }
    if text.len() - given > MOST_OCTETS {
        Some(&text[given..given + MOST_OCTETS])
    } else {
        Some(&text[given..])
    }
}

/// The set-up, ended.
fn set_up_of(memory: &mut Memory, running: &Running) -> Result<SetUp, OutOfMemory>
    ensures set_up { IfOk result (λ set_up. set_up ≡ running.now) }
    ensures wanted { OnErr result (memory.new.refused ≡ true) }
{
    let given = memory.copy(&running.given)?;
    let got = memory.copy(&running.got)?;
    Ok(SetUp { given, got })
}

/// Puts octets after the others.
fn extend(memory: &mut Memory, items: &mut Vec<u8>, octets: &[u8]) -> Result<(), OutOfMemory>
    ensures items { OnOk result (items.new.items ≡ items.old.items ++ octets.now) }
    ensures wanted { OnErr result (memory.new.refused ≡ true) }
{
    memory.took(items.extend_from_slice(octets))?;
    Ok(())
}
