//! The receiver: octets of an input in, the frames that are heard in them out.
ghost use Rattle.std.specs.Prelude.{◌≡◌, ◌≤◌, ◌<◌, ◌+◌, ◌^◌, ◌++◌, List, ℕ, ℤ, [], Some, false, length, IfOk, OnOk, IsErrOf};
ghost use Rattle.tnc_engine.specs.Making.{Adds, Finishes};
ghost use Rattle.tnc_forms.specs.declared.fault.InputFault.{InputFault};
ghost use Rattle.tnc_words.specs.declared.command.DecodeWords.{DecodeWords};
ghost use Rattle.tnc_decode.specs.Audio.{stopping_fault};
ghost use Rattle.tnc_decode.specs.declared.modem.Modem.{Modem};
ghost use Rattle.tnc_decode.specs.Held.{HasDecoded, HasHeard, finished_of, position_of};
ghost use Rattle.tnc_decode.specs.Making.{decode_making};
ghost use Rattle.tnc_decode.specs.Written.{most_at_once, most_shared};

use crate::audio::Audio;
use crate::decoders::Decoders;
use crate::modem::Modem;
use crate::printing::print;
use std::alloc::Global;
use std::thread::Threads;
use tnc_base::OutOfMemory;
use tnc_forms::{Fault, InputFault};
use tnc_words::{DecodeWords, FrameForm, Receiving};

/// The most octets that are read at once, so that a frame is written soon.
const BLOCK: usize = 2048;

/// The most octets whose samples threads share. A thread that is started for the lanes of so many has far more to do than
/// to start.
const LONG_BLOCK: usize = 262_144;

/// The most octets whose samples the threads of a sensitive receiver share. They do seven times as much with each sample,
/// and keep six octets of it beside the sample, so that a shorter block pays and takes less memory.
const SENSITIVE_BLOCK: usize = 65_536;

/// The most octets whose samples threads share, or that are read at once if they share none.
fn most_shared(receiving: Receiving) -> usize
    ensures { result ≡ most_shared receiving }
{
    match receiving {
        Receiving::Standard { .. } => LONG_BLOCK,
        Receiving::Sensitive { .. } => SENSITIVE_BLOCK,
        Receiving::ShortWave
        | Receiving::SensitiveShortWave
        | Receiving::Fx25
        | Receiving::SensitiveFx25 => BLOCK,
    }
}

/// The most octets that are read at once.
pub(crate) fn most_at_once(words: DecodeWords) -> usize
    ensures { result ≡ most_at_once words }
{
    if words.threads {
        most_shared(words.receiving)
    } else {
        BLOCK
    }
}

/// Audio, a decoder of its samples, and the form of the frames that are written.
#[derive(Drop)]
pub(crate) struct Receiver {
    alloc: Global,
    frames: FrameForm,
    threads: bool,
    audio: Audio,
    receiving: Receiving,
    samples: Vec<i16>,
    decoder: Decoders,
}

impl Receiver {
    /// A receiver to which no octet has come.
    pub(crate) fn new(alloc: Global, words: DecodeWords) -> Result<Receiver, OutOfMemory>
        ensures { IfOk result (λ receiver. HasHeard receiver words []) }
    {
        let audio = Audio::new(words);
        let modem = audio.modem(words.receiving);
        Ok(Receiver {
            alloc,
            frames: words.frames,
            threads: words.threads,
            audio,
            receiving: words.receiving,
            samples: Vec::with_capacity(alloc, most_at_once(words) / 2 + 1)?,
            decoder: Decoders::new(alloc, modem)?,
        })
    }

    /// Hears the next octets, and gives the text of the frames that they settle.
    pub(crate) fn hear<R: Threads + Sync>(
        &mut self,
        rt: &R,
        octets: &[u8],
    ) -> Result<Vec<u8>, Fault>
        requires room { position_of self.old.decoder + length octets.now < 2 ^ 48 }
        requires unfinished { finished_of self.old.decoder ≡ false }
        ensures heard { (words : DecodeWords) (before : List ℕ) → HasHeard self.old words before
            → IfOk result (λ text. HasHeard self.new words (before ++ octets.now)
            × Adds (decode_making words) before octets.now text.items) }
        ensures stops { (words : DecodeWords) (before : List ℕ) (fault : InputFault) → HasHeard self.old words before
            → IsErrOf result (Fault.Input fault) → stopping_fault words (before ++ octets.now) ≡ Some fault }
    {
        self.audio.take(octets, &mut self.samples)?;
        let modem = self.audio.modem(self.receiving);
        tune(self.alloc, modem, &mut self.decoder)?;
        let items = self
            .decoder
            .hear(rt, self.alloc, self.threads, &self.samples)?;
        let text = print(self.alloc, self.frames, &items)?;
        Ok(text)
    }

    /// The text of the rest of the frames, since the input has ended, and what is wrong with the input.
    pub(crate) fn end(&mut self) -> Result<(Vec<u8>, Option<InputFault>), OutOfMemory>
        requires room { position_of self.old.decoder + 15 < 2 ^ 48 }
        ensures { (words : DecodeWords) (octets : List ℕ) → HasHeard self.old words octets
            → IfOk result (λ end. Finishes (decode_making words) octets end.0.items end.1) }
    {
        let items = self.decoder.finish()?;
        let text = print(self.alloc, self.frames, &items)?;
        Ok((text, self.audio.verdict()))
    }
}

/// Takes the decoder of another modem in place of one that has taken no samples: a WAV file has told its rate.
fn tune(alloc: Global, modem: Modem, decoder: &mut Decoders) -> Result<(), OutOfMemory>
    requires unfinished { finished_of decoder.old ≡ false }
    ensures still { OnOk result ((x : List ℤ) → HasDecoded modem decoder.old x → HasDecoded modem decoder.new x) }
    ensures fresh { OnOk result ((other : Modem) → HasDecoded other decoder.old [] → HasDecoded modem decoder.new []) }
    ensures position { OnOk result (position_of decoder.new ≤ position_of decoder.old) }
    ensures unfinished { finished_of decoder.new ≡ false }
{
    if decoder.modem() != modem {
        *decoder = Decoders::new(alloc, modem)?;
    }
    Ok(())
}
