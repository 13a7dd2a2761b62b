//! What `decode` makes of its input, as the engine of the commands asks for it.
ghost use Rattle.std.specs.Thread.{IsSync};
ghost use Rattle.tnc_decode.specs.Held.{HasHeard};
ghost use Rattle.tnc_decode.specs.Making.{decode_making};

use crate::receiver::Receiver;
use std::thread::Threads;
use tnc_base::OutOfMemory;
use tnc_engine::{Maker, Taken};
use tnc_forms::{Fault, InputFault};
use tnc_words::DecodeWords;

/// Octets of audio in, the frames that are heard in them out. Keeps one block and the decoder, whose lanes can share
/// threads.
#[derive(Drop)]
pub(crate) struct Hearing<'a, R> {
    pub(crate) rt: &'a R,
    pub(crate) receiver: Receiver,
}

impl<R: Threads + Sync> Maker for Hearing<'_, R> {
    type Words = DecodeWords;

    ghost making = { decode_making };

    // The lanes' threads share the runtime.
    ghost holds = { λ s words octets. HasHeard s.receiver words octets × IsSync R.row };

    fn take(&mut self, octets: &[u8], text: &mut Vec<u8>) -> Result<Taken, OutOfMemory> {
        text.clear();
        match self.receiver.hear(self.rt, octets) {
            Ok(settled) => {
                *text = settled;
                Ok(Taken::Front(octets.len()))
            }
            Err(Fault::Input(fault)) => Ok(Taken::Bad(fault)),
            Err(_) => Err(OutOfMemory),
        }
    }

    fn finish(&mut self, text: &mut Vec<u8>) -> Result<Option<InputFault>, OutOfMemory> {
        let (rest, fault) = self.receiver.end()?;
        *text = rest;
        Ok(fault)
    }
}
