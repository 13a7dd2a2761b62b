//! What `encode` makes of its input if each frame is sent as it comes, as the engine of the commands asks for it.
ghost use Rattle.std.specs.Prelude.{◌≡◌, [], IfSome, OnOk};
ghost use Rattle.std.specs.Option.{option_to_list};
ghost use Rattle.hdlc_framer.specs.FrameLength.{IsBadLength};
ghost use Rattle.tnc_forms.specs.Pcm.{pcm};
ghost use Rattle.tnc_words.specs.declared.command.EncodeWords.{EncodeWords};
ghost use Rattle.tnc_encode.specs.Encoded.{signal_of};
ghost use Rattle.tnc_encode.specs.HeldFrames.{HasSent};
ghost use Rattle.tnc_encode.specs.Making.{encode_making, sent_apart};
ghost use Rattle.tnc_encode.specs.Writing.{CanSend};

use crate::frame_in::FrameIn;
use crate::sending::samples_at_once;
use std::alloc::Global;
use std::slice;
use tnc_base::{Octets, OutOfMemory};
use tnc_engine::{Maker, Taken};
use tnc_forms::{Fault, InputFault, write_pcm};
use tnc_words::EncodeWords;

/// Frames in, the raw PCM of their transmissions out. Keeps the part of one line or KISS item.
#[derive(Drop)]
pub(crate) struct Sender {
    alloc: Global,
    words: EncodeWords,
    frames: FrameIn,
}

impl Sender {
    /// A sender to which no octet has come.
    pub(crate) fn new(alloc: Global, words: EncodeWords) -> Sender
        requires { CanSend words }
        ensures { HasSent result words [] }
    {
        Sender {
            alloc,
            words,
            frames: FrameIn::new(alloc, words.frames),
        }
    }

    /// Puts the transmission of a frame in place of `text`, or nothing if there is none.
    fn send(&self, frame: Option<Octets>, text: &mut Vec<u8>) -> Result<(), OutOfMemory>
        requires words { CanSend self.now.words }
        requires length { IfSome frame (λ octets. ¬ IsBadLength octets) }
        ensures { OnOk result (text.new.items ≡ pcm (signal_of (sent_apart self.now.words) (option_to_list frame))) }
    {
        match frame {
            Some(octets) => {
                let samples = samples_at_once(self.alloc, self.words, slice::from_ref(&octets))?;
                *text = write_pcm(self.alloc, &samples)?;
            }
            None => text.clear(),
        }
        Ok(())
    }
}

impl Maker for Sender {
    type Words = EncodeWords;

    ghost making = { λ words. encode_making (sent_apart words) };

    ghost holds = { HasSent };

    fn take(&mut self, octets: &[u8], text: &mut Vec<u8>) -> Result<Taken, OutOfMemory> {
        text.clear();
        match self.frames.take(octets) {
            Ok((count, frame)) => {
                self.send(frame, text)?;
                Ok(Taken::Front(count))
            }
            Err(Fault::Input(fault)) => Ok(Taken::Bad(fault)),
            Err(_) => Err(OutOfMemory),
        }
    }

    fn finish(&mut self, text: &mut Vec<u8>) -> Result<Option<InputFault>, OutOfMemory> {
        text.clear();
        match self.frames.finish() {
            Ok(frame) => {
                self.send(frame, text)?;
                Ok(None)
            }
            Err(Fault::Input(fault)) => Ok(Some(fault)),
            Err(_) => Err(OutOfMemory),
        }
    }
}
