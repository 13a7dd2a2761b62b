//! The decoders of samples in blocks, after one trait: what is tested of several of them is written once.

ghost use Rattle.std.specs.Prelude.{◌≡◌, ◌+◌, ◌<◌, ◌≤◌, ◌^◌, ℕ, Bool, length as count, false, IfOk, OnOk};
ghost use Rattle.std.specs.Thread.{IsSync};

use crate::tests::meeting::Meeting;
use frame_merge::Candidate;
use hf_modem::HfDecoder;
use hf_sensitive::HfSensitiveDecoder;
use sensitive_receiver::{AllOnThreads, SensitiveDecoder};
use slicer_bank::{Decoder, OnThreads};
use std::alloc::Global;
use std::thread::Threads;
use tnc_base::OutOfMemory;
use wide_input::WideBank;

/// `start`, then `hear` or `hear_on_threads` for each block of samples, then `end`.
pub(crate) trait BlockDecoder: Drop {
    /// How many samples it has taken.
    ghost position: { Self → ℕ };

    /// Whether the samples have ended.
    ghost finished: { Self → Bool };

    /// A decoder that has taken nothing.
    fn start(alloc: Global) -> Result<Self, OutOfMemory>
        ensures position { IfOk result (λ decoder. position decoder ≡ 0) }
        ensures unfinished { IfOk result (λ decoder. finished decoder ≡ false) };

    /// Gives the items that a block settles.
    fn hear(&mut self, block: &[i16]) -> Result<Vec<Candidate>, OutOfMemory>
        requires few { count block.now ≤ 2048 }
        requires room { position self.old + count block.now < 2 ^ 48 }
        requires unfinished { finished self.old ≡ false }
        ensures position { OnOk result (position self.new ≡ position self.old + count block.now) }
        ensures unfinished { finished self.new ≡ false };

    /// Does what `hear` does, on two threads if the decoder can use them.
    fn hear_on_threads<R: Threads + Sync>(
        &mut self,
        _rt: &R,
        block: &[i16],
        _gate: &Meeting,
    ) -> Result<Vec<Candidate>, OutOfMemory>
        requires sync { IsSync R.row }
        requires few { count block.now ≤ 2048 }
        requires room { position self.old + count block.now < 2 ^ 48 }
        requires unfinished { finished self.old ≡ false }
        ensures position { OnOk result (position self.new ≡ position self.old + count block.now) }
        ensures unfinished { finished self.new ≡ false }
    {
        self.hear(block)
    }

    /// Gives the rest of the items.
    fn end(&mut self) -> Result<Vec<Candidate>, OutOfMemory>;
}

impl BlockDecoder for Decoder {
    ghost position = { λ decoder. decoder.position };

    ghost finished = { λ decoder. decoder.finished };

    fn start(alloc: Global) -> Result<Decoder, OutOfMemory> {
        Decoder::new(alloc)
    }

    fn hear(&mut self, block: &[i16]) -> Result<Vec<Candidate>, OutOfMemory> {
        Decoder::block(self, block)
    }

    fn hear_on_threads<R: Threads + Sync>(
        &mut self,
        rt: &R,
        block: &[i16],
        _gate: &Meeting,
    ) -> Result<Vec<Candidate>, OutOfMemory> {
        Decoder::block_by(self, &OnThreads { rt }, block)
    }

    fn end(&mut self) -> Result<Vec<Candidate>, OutOfMemory> {
        Decoder::finish(self)
    }
}

impl BlockDecoder for WideBank {
    ghost position = { λ bank. bank.position };

    ghost finished = { λ bank. bank.finished };

    fn start(alloc: Global) -> Result<WideBank, OutOfMemory> {
        WideBank::new(alloc)
    }

    fn hear(&mut self, block: &[i16]) -> Result<Vec<Candidate>, OutOfMemory> {
        WideBank::block(self, block)
    }

    fn hear_on_threads<R: Threads + Sync>(
        &mut self,
        rt: &R,
        block: &[i16],
        gate: &Meeting,
    ) -> Result<Vec<Candidate>, OutOfMemory> {
        WideBank::block_threads(self, rt, block, gate)
    }

    fn end(&mut self) -> Result<Vec<Candidate>, OutOfMemory> {
        WideBank::finish(self)
    }
}

impl BlockDecoder for HfDecoder {
    ghost position = { λ decoder. decoder.position };

    ghost finished = { λ decoder. decoder.finished };

    fn start(alloc: Global) -> Result<HfDecoder, OutOfMemory> {
        HfDecoder::new(alloc)
    }

    fn hear(&mut self, block: &[i16]) -> Result<Vec<Candidate>, OutOfMemory> {
        HfDecoder::block(self, block)
    }

    fn end(&mut self) -> Result<Vec<Candidate>, OutOfMemory> {
        HfDecoder::finish(self)
    }
}

impl BlockDecoder for HfSensitiveDecoder {
    ghost position = { λ decoder. decoder.position };

    ghost finished = { λ decoder. decoder.finished };

    fn start(alloc: Global) -> Result<HfSensitiveDecoder, OutOfMemory> {
        HfSensitiveDecoder::new(alloc)
    }

    fn hear(&mut self, block: &[i16]) -> Result<Vec<Candidate>, OutOfMemory> {
        HfSensitiveDecoder::block(self, block)
    }

    fn end(&mut self) -> Result<Vec<Candidate>, OutOfMemory> {
        HfSensitiveDecoder::finish(self)
    }
}

impl BlockDecoder for SensitiveDecoder {
    ghost position = { λ decoder. decoder.position };

    ghost finished = { λ decoder. decoder.finished };

    fn start(alloc: Global) -> Result<SensitiveDecoder, OutOfMemory> {
        SensitiveDecoder::new(alloc)
    }

    fn hear(&mut self, block: &[i16]) -> Result<Vec<Candidate>, OutOfMemory> {
        SensitiveDecoder::block(self, block)
    }

    fn hear_on_threads<R: Threads + Sync>(
        &mut self,
        rt: &R,
        block: &[i16],
        _gate: &Meeting,
    ) -> Result<Vec<Candidate>, OutOfMemory> {
        SensitiveDecoder::block_by(self, &AllOnThreads { rt }, block)
    }

    fn end(&mut self) -> Result<Vec<Candidate>, OutOfMemory> {
        SensitiveDecoder::finish(self)
    }
}
