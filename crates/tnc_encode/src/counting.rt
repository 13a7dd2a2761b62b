//! How many samples a signal has, and the head of its WAV file.
ghost use Rattle.std.specs.Prelude.{◌≡◌, ◌≤◌, ◌<◌, ◌+◌, ◌*◌, ◌^◌, IfOk, IfErr, OnOk, length, true};
ghost use Rattle.wav_file.specs.Head.{head_of};
ghost use Rattle.tnc_forms.specs.declared.fault.InputFault.{InputFault};
ghost use Rattle.tnc_encode.specs.Encoded.{most_samples, samples_at_once, signal_of, transmissions};
ghost use Rattle.tnc_encode.specs.Writing.{CanBeSent, CanSend};

use crate::bell202::bell202_count;
use crate::sending::samples_at_once;
use std::alloc::Global;
use std::slice;
use tnc_base::{Octets, OutOfMemory};
use tnc_forms::InputFault;
use tnc_words::{EncodeWords, Modem};
use wav_file::wav_head;

/// The count of the samples of all transmissions, one at a time.
pub(crate) fn count_samples(
    alloc: Global,
    words: EncodeWords,
    frames: &[Octets],
) -> Result<u128, OutOfMemory>
    requires words { CanSend words }
    requires frames { CanBeSent frames.now }
    ensures { IfOk result (λ count. count ≡ length (signal_of words frames.now)) }
{
    if words.join {
        return count_joined(alloc, words, frames);
    }
    // No sum of so few lengths passes 128 bits.
    let mut count = 0;
    for frame in frames {
        count += count_at_once(alloc, words, slice::from_ref(frame))? as u128;
    }
    Ok(count)
}

/// The count of samples if all frames are one transmission.
fn count_joined(alloc: Global, words: EncodeWords, frames: &[Octets]) -> Result<u128, OutOfMemory>
    requires words { CanSend words }
    requires frames { CanBeSent frames.now }
    requires join { words.join ≡ true }
    ensures { IfOk result (λ count. count ≡ length (signal_of words frames.now)) }
{
    if frames.is_empty() {
        return Ok(0);
    }
    Ok(count_at_once(alloc, words, frames)? as u128)
}

/// The count of samples of frames that are sent at one go. Of Bell 202 the bits are counted, and no samples are made.
fn count_at_once(alloc: Global, words: EncodeWords, frames: &[Octets]) -> Result<usize, OutOfMemory>
    requires words { CanSend words }
    requires frames { CanBeSent frames.now }
    ensures count { IfOk result (λ count. count ≡ length (samples_at_once words frames.now)) }
    ensures bound { IfOk result (λ count. count < 2 ^ 64) }
{
    match words.modem {
        Modem::Bell202 => {
            let count = bell202_count(alloc, words.silence, frames, words.opening, words.closing)?;
            Ok(count)
        }
        Modem::ShortWave | Modem::Fx25(_) => {
            let samples = samples_at_once(alloc, words, frames)?;
            Ok(samples.len())
        }
    }
}

/// The head of a WAV file of so many samples.
pub(crate) fn head(count: u128) -> Result<[u8; 44], InputFault>
    ensures head { IfOk result (λ head. head ≡ head_of count) }
    ensures fits { OnOk result (count ≤ most_samples) }
    ensures long { IfErr result (λ fault. (fault ≡ InputFault.LongWav count) × (most_samples < count)) }
{
    let long = InputFault::LongWav { count };
    let Ok(count) = u64::try_from(count) else {
        return Err(long);
    };
    match wav_head(count) {
        Ok(head) => Ok(head),
        Err(_) => Err(long),
    }
}
