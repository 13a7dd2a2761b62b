//! The message under way: its header and body as far as they have come, or the length that was too long.

ghost use Rattle.std.specs.Prelude.{◌≡◌, ◌<◌, [], length, OnOk, OnErr, IfOk};

use crate::message::{AgwMessage, HEADER, length_of};
use arrayvec::ArrayVec;
use std::alloc::Global;
use std::marker::Model;
use tnc_base::OutOfMemory;

// The most octets of a body.
const MOST_BODY: u32 = 4096;

#[derive(Drop)]
pub(crate) struct UnderWay {
    alloc: Global,
    header: ArrayVec<u8, HEADER>,
    body: Vec<u8>,
    bad: Option<u32>,
}

impl Model for UnderWay {
    ghost use Rattle.agwpe_port.specs.Held.{Held};

    ghost Value = { Held };

    ghost view = { λ a. record { header = a.header.items; body = a.body.items; bad = a.bad } };
}

impl UnderWay {
    ghost use Rattle.agwpe_port.specs.Messages.{message_of};
    ghost use Rattle.agwpe_port.specs.Held.{new_held, taken, told};

    // Nothing has come.
    pub(crate) fn new(alloc: Global) -> Self
        ensures { result ≡ new_held }
    {
        UnderWay {
            alloc,
            header: ArrayVec::new(),
            body: Vec::new(alloc),
            bad: None,
        }
    }

    // The length that was too long, if there was one.
    pub(crate) fn bad(&self) -> Option<u32>
        ensures { result ≡ self.now.bad }
    {
        self.bad
    }

    // Takes an octet of a stream that is not bad.
    pub(crate) fn take(&mut self, octet: u8) -> Result<Option<AgwMessage>, OutOfMemory>
        ensures taken { OnOk result (self.new ≡ taken self.old octet) }
        ensures told { IfOk result (λ message. message ≡ told self.old octet) }
        ensures untaken { OnErr result (self.new ≡ self.old) }
    {
        if self.header.is_full() {
            self.take_of_body(octet)
        } else {
            self.take_of_header(octet)
        }
    }

    fn take_of_header(&mut self, octet: u8) -> Result<Option<AgwMessage>, OutOfMemory>
        requires { length self.old.header < HEADER }
        ensures taken { OnOk result (self.new ≡ taken self.old octet) }
        ensures told { IfOk result (λ message. message ≡ told self.old octet) }
        ensures untaken { OnErr result (self.new ≡ self.old) }
    {
        self.header.push(octet);
        if !self.header.is_full() {
            return Ok(None);
        }
        let len = length_of(self.header.as_slice());
        if len > MOST_BODY {
            self.bad = Some(len);
            return Ok(None);
        }
        if len > 0 {
            return Ok(None);
        }
        match self.end() {
            Ok(message) => Ok(Some(message)),
            Err(fault) => {
                self.header.pop();
                Err(fault)
            }
        }
    }

    fn take_of_body(&mut self, octet: u8) -> Result<Option<AgwMessage>, OutOfMemory>
        requires { length self.old.header ≡ HEADER }
        ensures taken { OnOk result (self.new ≡ taken self.old octet) }
        ensures told { IfOk result (λ message. message ≡ told self.old octet) }
        ensures untaken { OnErr result (self.new ≡ self.old) }
    {
        self.body.push(octet)?;
        if self.body.len() < length_of(self.header.as_slice()) as usize {
            return Ok(None);
        }
        match self.end() {
            Ok(message) => Ok(Some(message)),
            Err(fault) => {
                self.body.pop();
                Err(fault)
            }
        }
    }

    // The message of the header and the body, after which the next one begins.
    fn end(&mut self) -> Result<AgwMessage, OutOfMemory>
        requires { length self.old.header ≡ HEADER }
        ensures ended { OnOk result (self.new ≡ record { header = []; body = []; bad = self.old.bad }) }
        ensures message { IfOk result (λ message. message ≡ message_of self.old.header self.old.body) }
        ensures untaken { OnErr result (self.new ≡ self.old) }
    {
        let message = AgwMessage::of_parts(self.alloc, self.header.as_slice(), &self.body)?;
        self.header.clear();
        self.body.clear();
        Ok(message)
    }
}
