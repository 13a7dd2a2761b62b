//! Frames as the octets of their signal.
ghost use Rattle.std.specs.Prelude.{◌≡◌, ℕ, IfOk, IsErrOf};
ghost use Rattle.afsk_modulator.specs.Modulation.{IsLevel};
ghost use Rattle.afsk_modulator.specs.Transmission.{AreFewFlags, IsFirstBadLength};
ghost use Rattle.tnc_encode.specs.Encoded.{samples_at_once};
ghost use Rattle.tnc_encode.specs.Sending.{transmission_by};
ghost use Rattle.tnc_encode.specs.Writing.{CanBeSent, CanSend};

use crate::bell202::bell202_transmission;
use afsk_modulator::ModFault;
use fx25_sender::fx25_transmission;
use hf_sender::hf_transmission;
use std::alloc::Global;
use tnc_base::{Octets, OutOfMemory};
use tnc_words::{EncodeWords, Modem};

/// The samples of frames that are sent at one go: the silence before them, and their transmission by the
/// modem and at the level of the words.
pub(crate) fn samples_at_once(
    alloc: Global,
    words: EncodeWords,
    frames: &[Octets],
) -> Result<Vec<i16>, OutOfMemory>
    requires words { CanSend words }
    requires frames { CanBeSent frames.now }
    ensures { IfOk result (λ samples. samples.items ≡ samples_at_once words frames.now) }
{
    let mut samples = Vec::new(alloc);
    samples.resize(words.silence as usize, 0)?;
    match transmission(alloc, words, frames) {
        Ok(sent) => samples.extend_from_slice(&sent)?,
        Err(ModFault::Memory) => return Err(OutOfMemory),
        Err(ModFault::FewFlags) => unreachable!(),
        Err(ModFault::BadLength { .. }) => unreachable!(),
    }
    Ok(samples)
}

/// The transmission of frames by the modem of the words.
#[tactic(auto, unfolding(crate::specs::Sending::transmission_by))]
fn transmission(alloc: Global, words: EncodeWords, frames: &[Octets]) -> Result<Vec<i16>, ModFault>
    requires level { IsLevel words.level }
    ensures sent { IfOk result (λ samples. samples.items
        ≡ transmission_by words.modem words.level frames.now words.opening words.closing) }
    ensures few_flags { IsErrOf result ModFault.FewFlags → AreFewFlags words.opening words.closing }
    ensures bad_length { (index : ℕ) → IsErrOf result (ModFault.BadLength index) → IsFirstBadLength frames.now index }
{
    match words.modem {
        Modem::Bell202 => {
            let samples = bell202_transmission(
                alloc,
                words.level,
                frames,
                words.opening,
                words.closing,
            )?;
            Ok(samples)
        }
        Modem::ShortWave => {
            hf_transmission(alloc, words.level, frames, words.opening, words.closing)
        }
        Modem::Fx25(checks) => fx25_transmission(
            alloc,
            checks.count(),
            words.level,
            frames,
            words.opening,
            words.closing,
        ),
    }
}
