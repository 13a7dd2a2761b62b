//! What `show` makes of its input, as the engine of the commands asks for it.
ghost use Rattle.std.specs.Prelude.{[]};
ghost use Rattle.tnc_show.specs.HeldShow.{HasShown};
ghost use Rattle.tnc_show.specs.Making.{show_making};

use crate::lines::{push_frame, take_lines};
use ax25_frames::Modulus;
use std::alloc::Global;
use tnc_base::OutOfMemory;
use tnc_engine::{Maker, Taken};
use tnc_forms::{Fault, HexIn, InputFault};
use tnc_words::ShowWords;

/// Lines of frames in, their lines of text out. Keeps the part of one line.
#[derive(Drop)]
pub(crate) struct Shower {
    alloc: Global,
    modulus: Modulus,
    lines: HexIn,
}

impl Shower {
    /// A shower to which no octet has come.
    pub(crate) fn new(alloc: Global, words: ShowWords) -> Shower
        ensures { HasShown result words [] }
    {
        Shower {
            alloc,
            modulus: words.modulus,
            lines: HexIn::new(alloc, 0),
        }
    }
}

impl Maker for Shower {
    type Words = ShowWords;

    ghost making = { show_making };

    ghost holds = { HasShown };

    fn take(&mut self, octets: &[u8], text: &mut Vec<u8>) -> Result<Taken, OutOfMemory> {
        let fault = take_lines(self.alloc, self.modulus, &mut self.lines, octets, text)?;
        match fault {
            None => Ok(Taken::Front(octets.len())),
            Some(fault) => Ok(Taken::Bad(fault)),
        }
    }

    fn finish(&mut self, text: &mut Vec<u8>) -> Result<Option<InputFault>, OutOfMemory> {
        text.clear();
        match self.lines.finish() {
            Ok(frame) => {
                push_frame(self.alloc, self.modulus, frame, text)?;
                Ok(None)
            }
            Err(Fault::Input(fault)) => Ok(Some(fault)),
            Err(_) => Err(OutOfMemory),
        }
    }
}
