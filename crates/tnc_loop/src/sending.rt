//! The samples of the transmissions that are drawn, and where their frames end.
ghost use Rattle.std.specs.Prelude.{◌≡◌, ◌<◌, ◌^◌, ◌∷◌, [], ◌++◌, List, length, IfOk, OnOk};
ghost use Rattle.afsk_modulator.specs.Signal.{samples_of};
ghost use Rattle.clean_signal.specs.GoodTransmission.{sample_count};
ghost use Rattle.clean_signal.specs.NearSignal.{Received};
ghost use Rattle.tnc_loop.specs.Drawn.{Heard, after_heard, heard_drawn, heard_of};
ghost use Rattle.tnc_loop.specs.Held.{drawn_as, HasSent, IsGood};

use crate::drawing::{Drawn, draw, generator};
use crate::rough::rough_samples;
use afsk_modulator::{ModFault, transmission};
use clean_signal::TrueEnd;
use rand_pcg::Lcg64Xsh32;
use std::alloc::Global;
use std::slice;
use tnc_base::OutOfMemory;
use tnc_words::LoopWords;

/// A flag is eight bits of eight samples.
const FLAG: u64 = 64;

/// What was sent, one transmission after the other.
#[derive(Drop)]
pub(crate) struct Sent {
    /// The samples of all transmissions.
    pub samples: Vec<i16>,
    /// The frames, and where they end.
    pub ends: Vec<TrueEnd>,
}

/// Sends the transmissions that the words draw.
pub(crate) fn send_drawn(alloc: Global, words: LoopWords) -> Result<Sent, OutOfMemory>
    ensures sent { IfOk result (λ sent. HasSent sent (heard_drawn words)) }
    ensures count { IfOk result (λ sent. length sent.samples.items < 2 ^ 48) }
{
    let mut generator = generator(words.seed);
    let mut sent = Sent {
        samples: Vec::new(alloc),
        ends: Vec::new(alloc),
    };
    for _ in 0..words.frames {
        let drawn = draw(alloc, &mut generator)?;
        let samples = samples_heard(alloc, words.rough, &drawn, &mut generator)?;
        send(drawn, &samples, &mut sent)?;
    }
    Ok(sent)
}

/// Sends one transmission more, of which these samples are heard.
fn send(drawn: Drawn, samples: &[i16], sent: &mut Sent) -> Result<(), OutOfMemory>
    requires good { IsGood drawn }
    requires count { length samples.now ≡ sample_count (drawn_as drawn) }
    ensures { OnOk result ((before : List Heard) (received : Received) → received.transmission ≡ drawn_as drawn
        → HasSent sent.old before
        → HasSent sent.new (before ++ record { received = received; samples = samples.now } ∷ [])) }
{
    sent.samples.extend_from_slice(samples)?;
    // The frame ends with the first of the flags that close it.
    let end = sent.samples.len() as u64 - FLAG * u64::from(drawn.closing - 1);
    sent.ends.push(TrueEnd {
        end,
        octets: drawn.octets,
    })?;
    Ok(())
}

/// The samples that are heard of one transmission, with what is heard before it.
fn samples_heard(
    alloc: Global,
    rough: bool,
    drawn: &Drawn,
    generator: &mut Lcg64Xsh32,
) -> Result<Vec<i16>, OutOfMemory>
    requires { IsGood drawn.now }
    ensures samples { IfOk result (λ samples. samples.items
        ≡ (heard_of rough (drawn_as drawn.now) generator.old).samples) }
    ensures following { OnOk result (generator.new ≡ after_heard rough (drawn_as drawn.now) generator.old) }
{
    if rough {
        rough_samples(alloc, drawn, generator)
    } else {
        samples_of(alloc, drawn)
    }
}

/// The samples of one transmission, with the silence before it.
fn samples_of(alloc: Global, drawn: &Drawn) -> Result<Vec<i16>, OutOfMemory>
    requires { IsGood drawn.now }
    ensures { IfOk result (λ samples. samples.items ≡ samples_of (drawn_as drawn.now)) }
{
    let mut samples = Vec::new(alloc);
    samples.resize(drawn.silence as usize, 0)?;
    let frames = slice::from_ref(&drawn.octets);
    match transmission(alloc, frames, drawn.opening, drawn.closing) {
        Ok(following) => samples.extend_from_slice(&following)?,
        Err(ModFault::Memory) => return Err(OutOfMemory),
        Err(ModFault::FewFlags) => unreachable!(),
        Err(ModFault::BadLength { .. }) => unreachable!(),
    }
    Ok(samples)
}
