//! The decoder of each modem.
ghost use Rattle.std.specs.Prelude.{◌≡◌, ◌≤◌, ◌<◌, ◌+◌, ◌^◌, ◌++◌, List, ℕ, ℤ, [], true, false, length, IfOk};
ghost use Rattle.tnc_decode.specs.declared.modem.Modem.{Modem};
ghost use Rattle.tnc_decode.specs.Modem.{settled_count, AreGivenBetween, AreGivenRest};
ghost use Rattle.tnc_decode.specs.Held.{HasDecoded, TakesAtOnce, position_of, finished_of};

use crate::fx25_decoder::Fx25Decoder;
use crate::modem::Modem;
use crate::sensitive_fx25_decoder::SensitiveFx25Decoder;
use frame_merge::Candidate;
use hf_modem::HfDecoder;
use hf_sensitive::HfSensitiveDecoder;
use sensitive_receiver::{AllOnThreads, SensitiveDecoder};
use slicer_bank::{Decoder, OnThreads, OpenGate};
use std::alloc::Global;
use std::thread::Threads;
use tnc_base::OutOfMemory;
use wide_input::{WideDecoder, WideSensitiveDecoder};

/// The most samples of a short block. Some decoders take no longer one, and a thread takes about as long to start as it
/// saves over one.
const SHORT_BLOCK: usize = 2048;

/// The most samples of a block at 48,000 a second that threads share.
const LONG_WIDE_BLOCK: usize = 32768;

/// Samples in, frames out: a decoder for each modem.
#[derive(Drop)]
pub(crate) enum Decoders {
    Plain(Decoder),
    Wide(WideDecoder),
    Sensitive(SensitiveDecoder),
    WideSensitive(WideSensitiveDecoder),
    ShortWave(HfDecoder),
    SensitiveShortWave(HfSensitiveDecoder),
    Fx25(Fx25Decoder),
    SensitiveFx25(SensitiveFx25Decoder),
}

impl Decoders {
    /// The decoder of a modem, which has taken nothing.
    pub(crate) fn new(alloc: Global, modem: Modem) -> Result<Decoders, OutOfMemory>
        ensures stands_for { IfOk result (λ decoder. HasDecoded modem decoder []) }
        ensures position { IfOk result (λ decoder. position_of decoder ≡ 0) }
        ensures unfinished { IfOk result (λ decoder. finished_of decoder ≡ false) }
    {
        match modem {
            Modem::Plain => Ok(Decoders::Plain(Decoder::new(alloc)?)),
            Modem::Wide => Ok(Decoders::Wide(WideDecoder::new(alloc)?)),
            Modem::Sensitive => Ok(Decoders::Sensitive(SensitiveDecoder::new(alloc)?)),
            Modem::WideSensitive => {
                Ok(Decoders::WideSensitive(WideSensitiveDecoder::new(alloc)?))
            }
            Modem::ShortWave => Ok(Decoders::ShortWave(HfDecoder::new(alloc)?)),
            Modem::SensitiveShortWave => {
                Ok(Decoders::SensitiveShortWave(HfSensitiveDecoder::new(alloc)?))
            }
            Modem::Fx25 => Ok(Decoders::Fx25(Fx25Decoder::new(alloc)?)),
            Modem::SensitiveFx25 => {
                Ok(Decoders::SensitiveFx25(SensitiveFx25Decoder::new(alloc)?))
            }
        }
    }

    /// The modem whose decoder it is.
    pub(crate) fn modem(&self) -> Modem
        ensures { (modem : Modem) (x : List ℤ) → HasDecoded modem self.now x → result ≡ modem }
    {
        match self {
            Decoders::Plain(_) => Modem::Plain,
            Decoders::Wide(_) => Modem::Wide,
            Decoders::Sensitive(_) => Modem::Sensitive,
            Decoders::WideSensitive(_) => Modem::WideSensitive,
            Decoders::ShortWave(_) => Modem::ShortWave,
            Decoders::SensitiveShortWave(_) => Modem::SensitiveShortWave,
            Decoders::Fx25(_) => Modem::Fx25,
            Decoders::SensitiveFx25(_) => Modem::SensitiveFx25,
        }
    }

    /// The items that samples settle, heard in blocks that are as long as the decoder takes them.
    pub(crate) fn hear<R: Threads + Sync>(
        &mut self,
        rt: &R,
        alloc: Global,
        threads: bool,
        samples: &[i16],
    ) -> Result<Vec<Candidate>, OutOfMemory>
        requires room { position_of self.old + length samples.now < 2 ^ 48 }
        requires unfinished { finished_of self.old ≡ false }
        ensures given { IfOk result (λ items. (modem : Modem) (x : List ℤ) → HasDecoded modem self.old x
            → HasDecoded modem self.new (x ++ samples.now)
            × AreGivenBetween modem (settled_count modem x) (settled_count modem (x ++ samples.now)) (x
            ++ samples.now) items.items) }
        ensures position { IfOk result (λ items. position_of self.new ≤ position_of self.old + length samples.now) }
        ensures unfinished { finished_of self.new ≡ false }
    {
        let mut items = Vec::new(alloc);
        let mut done = 0;
        while done < samples.len() {
            let count = (samples.len() - done).min(self.most_at_once(threads));
            let block = &samples[done..done + count];
            let mut more = self.block(rt, threads, block)?;
            items.append(&mut more)?;
            done += count;
        }
        Ok(items)
    }

    /// How many samples a block of it may have.
    fn most_at_once(&self, threads: bool) -> usize
        ensures some { 0 < result }
        ensures takes { (count : ℕ) → count ≤ result → TakesAtOnce threads self.now count }
    {
        match self {
            Decoders::Plain(_) | Decoders::Sensitive(_) => usize::MAX,
            Decoders::Wide(_) | Decoders::WideSensitive(_) if threads => LONG_WIDE_BLOCK,
            Decoders::Wide(_) | Decoders::WideSensitive(_) => SHORT_BLOCK,
            Decoders::ShortWave(_) | Decoders::SensitiveShortWave(_) => SHORT_BLOCK,
            Decoders::Fx25(_) | Decoders::SensitiveFx25(_) => SHORT_BLOCK,
        }
    }

    /// The items that a block of samples settles. With threads the lanes work on several, if the modem has that and the
    /// block is long enough for threads to pay.
    fn block<R: Threads + Sync>(
        &mut self,
        rt: &R,
        threads: bool,
        block: &[i16],
    ) -> Result<Vec<Candidate>, OutOfMemory>
        requires few { TakesAtOnce threads self.old (length block.now) }
        requires room { position_of self.old + length block.now < 2 ^ 48 }
        requires unfinished { finished_of self.old ≡ false }
        ensures given { IfOk result (λ items. (modem : Modem) (x : List ℤ) → HasDecoded modem self.old x
            → HasDecoded modem self.new (x ++ block.now)
            × AreGivenBetween modem (settled_count modem x) (settled_count modem (x ++ block.now)) (x
            ++ block.now) items.items) }
        ensures position { IfOk result (λ items. position_of self.new ≤ position_of self.old + length block.now) }
        ensures unfinished { finished_of self.new ≡ false }
    {
        let threads = is_shared(threads, block);
        match self {
            Decoders::Plain(decoder) if threads => decoder.block_by(&OnThreads { rt }, block),
            Decoders::Plain(decoder) => decoder.block(block),
            Decoders::Wide(decoder) if threads => decoder.block_threads(rt, block, &OpenGate),
            Decoders::Wide(decoder) => decoder.block(block),
            Decoders::Sensitive(decoder) if threads => decoder.block_by(
                &AllOnThreads { rt },
                block,
            ),
            Decoders::Sensitive(decoder) => decoder.block(block),
            Decoders::WideSensitive(decoder) if threads => decoder.block_threads(rt, block),
            Decoders::WideSensitive(decoder) => decoder.block(block),
            Decoders::ShortWave(decoder) => decoder.block(block),
            Decoders::SensitiveShortWave(decoder) => decoder.block(block),
            Decoders::Fx25(decoder) => decoder.block(block),
            Decoders::SensitiveFx25(decoder) => decoder.block(block),
        }
    }

    /// The rest of the items: the samples have ended.
    pub(crate) fn finish(&mut self) -> Result<Vec<Candidate>, OutOfMemory>
        requires room { position_of self.old + 15 < 2 ^ 48 }
        ensures rest { IfOk result (λ items. (modem : Modem) (x : List ℤ) → HasDecoded modem self.old x
            → AreGivenRest modem (settled_count modem x) x items.items) }
    {
        match self {
            Decoders::Plain(decoder) => decoder.finish(),
            Decoders::Wide(decoder) => decoder.finish(),
            Decoders::Sensitive(decoder) => decoder.finish(),
            Decoders::WideSensitive(decoder) => decoder.finish(),
            Decoders::ShortWave(decoder) => decoder.finish(),
            Decoders::SensitiveShortWave(decoder) => decoder.finish(),
            Decoders::Fx25(decoder) => Ok(decoder.finish()),
            Decoders::SensitiveFx25(decoder) => decoder.finish(),
        }
    }
}

/// Whether threads share a block: they are asked for, and it is not short.
fn is_shared(threads: bool, block: &[i16]) -> bool
    ensures { result ≡ false → threads ≡ true → length block.now ≤ 2048 }
{
    threads && block.len() > SHORT_BLOCK
}
