//! The pump: it carries the samples of the input into the ring, while the station's turns read them there.
ghost use Rattle.std.specs.Prelude.{◌≡◌, ◌≢◌, ◌≤◌, ◌<◌, ◌+◌, ◌-◌, ◌^◌, ℕ, ℤ, List, Some, [], ◌++◌, length, map};
ghost use Rattle.std.specs.Prelude.{◌*◌, Option, option_map};
ghost use Rattle.sample_ring.specs.Ends.{ring_id, writer_ring, done_ring, published_by, all_published};
ghost use Rattle.tnc_base.specs.Faults.{HasRisen};
ghost use Rattle.sound_rate.specs.declared.rate.Rate.{Rate};
ghost use Rattle.sound_rate.specs.HeldRates.{HasReceived};
ghost use Rattle.sound_rate.specs.Rates.{received};
ghost use Rattle.wav_file.specs.Samples.{sample_of};
ghost use Rattle.tnc_ports.specs.HeldPump.{HasPumped, HasStopped, HasTaken, IsFed, PacesOn};
ghost use Rattle.tnc_ports.specs.Inlet.{Step, KeepsPace};
ghost use Rattle.tnc_ports.specs.Inlet.Step.{Publishes};
ghost use Rattle.tnc_ports.specs.Pumped.{IsPumped};
ghost use Rattle.tnc_ports.specs.OddOctet.{odd_after, ended};

use crate::inlet::{Inlet, RingInlet};
use sample_ring::{Ring, Writer, WriterDone};
use sound_rate::{Incoming, Rate};
use tnc_base::Source;
use wav_file::sample_of;

/// The most octets of an input.
const MOST_INPUT: usize = 1 << 40;

/// The most octets of one read.
const PIECE: usize = 4096;

/// Why a pump stops.
#[derive(Clone, Copy, Debug, PartialEq, Eq)]
pub enum PumpEnd {
    /// The input ended.
    InputEnd,
    /// A read failed.
    ReadFault,
    /// The input has more than 2^40 octets.
    TooLong,
}

/// A ring that was filled and ended, and why.
#[derive(Drop)]
pub struct Pumped {
    /// The ended writer.
    pub done: WriterDone,
    /// Why the pump stopped.
    pub end: PumpEnd,
}

/// Publishes the modem's samples of the input as they come, and ends the ring when the input ends, when a read fails, or
/// at the octet after the 2^40th. A last odd octet is no sample.
pub fn pump<I: Source>(source: &mut I, ring: &Ring, writer: Writer, rate: Rate) -> Pumped
    requires ring { writer_ring writer ≡ ring_id ring.now }
    requires new { published_by writer ≡ [] }
    ensures ring { done_ring result.done ≡ writer_ring writer }
    ensures pumped { (octets : List ℕ) → (I.told source.old).left ≡ Some octets
        → IsPumped rate octets (I.told source.new).left (all_published result.done) result.end }
    ensures count { length (all_published result.done) ≤ 2 ^ 39 }
    ensures later { (I.told source.old).faults ≤ (I.told source.new).faults }
    ensures read { result.end ≡ PumpEnd.ReadFault → HasRisen (I.told source.old).faults (I.told source.new).faults }
    ensures faultless { result.end ≢ PumpEnd.ReadFault → (I.told source.new).faults ≡ (I.told source.old).faults }
{
    let mut writer = writer;
    let end = fill(source, ring, &mut writer, rate);
    Pumped {
        done: writer.end(ring),
        end,
    }
}

/// Publishes the samples of the input until the pump stops.
fn fill<I: Source>(source: &mut I, ring: &Ring, writer: &mut Writer, rate: Rate) -> PumpEnd
    requires ring { writer_ring writer.old ≡ ring_id ring.now }
    requires new { published_by writer.old ≡ [] }
    ensures ring { writer_ring writer.new ≡ writer_ring writer.old }
    ensures pumped { (octets : List ℕ) → (I.told source.old).left ≡ Some octets
        → IsPumped rate octets (I.told source.new).left (published_by writer.new) result }
    ensures count { length (published_by writer.new) ≤ 2 ^ 39 }
    ensures later { (I.told source.old).faults ≤ (I.told source.new).faults }
    ensures read { result ≡ PumpEnd.ReadFault → HasRisen (I.told source.old).faults (I.told source.new).faults }
    ensures faultless { result ≢ PumpEnd.ReadFault → (I.told source.new).faults ≡ (I.told source.old).faults }
{
    let mut inlet = RingInlet {
        source,
        ring,
        writer,
    };
    let end = pump_inlet(&mut inlet, rate);
    let RingInlet {
        source: _,
        ring: _,
        writer: _,
    } = inlet;
    end
}

/// The same for an inlet. Each sample that is settled by what a read brought is published before the next read.
pub fn pump_inlet<T: Inlet>(inlet: &mut T, rate: Rate) -> PumpEnd
    requires new { T.published inlet.old ≡ [] }
    ensures input { T.input inlet.new ≡ T.input inlet.old }
    ensures output { T.output inlet.new ≡ T.output inlet.old }
    ensures ring { T.ring inlet.new ≡ T.ring inlet.old }
    ensures pumped { (octets : List ℕ) → (T.told inlet.old).left ≡ Some octets
        → IsPumped rate octets (T.told inlet.new).left (T.published inlet.new) result }
    ensures pace { (before : List Step) → T.steps inlet.old ≡ Some before
        → (more : List Step) × (T.steps inlet.new ≡ Some (before ++ more)) × KeepsPace rate more }
    ensures count { length (T.published inlet.new) ≤ 2 ^ 39 }
    ensures later { (T.told inlet.old).faults ≤ (T.told inlet.new).faults }
    ensures read { result ≡ PumpEnd.ReadFault → HasRisen (T.told inlet.old).faults (T.told inlet.new).faults }
    ensures faultless { result ≢ PumpEnd.ReadFault → (T.told inlet.new).faults ≡ (T.told inlet.old).faults }
{
    let mut incoming = Incoming::new(rate);
    let end = pump_reads(inlet, &mut incoming);
    publish_rest(inlet, &mut incoming);
    end
}

/// Publishes the samples that are settled by what is read, until the pump stops.
fn pump_reads<T: Inlet>(inlet: &mut T, incoming: &mut Incoming) -> PumpEnd
    requires new { T.published inlet.old ≡ [] }
    ensures input { T.input inlet.new ≡ T.input inlet.old }
    ensures output { T.output inlet.new ≡ T.output inlet.old }
    ensures ring { T.ring inlet.new ≡ T.ring inlet.old }
    ensures pumped { (rate : Rate) (octets : List ℕ) → HasReceived rate incoming.old []
        → (T.told inlet.old).left ≡ Some octets
        → (low : Option ℕ) × (total : ℕ)
        × HasPumped rate octets (T.told inlet.new).left (T.published inlet.new) incoming.new low total
        × HasStopped result (T.told inlet.new).left total }
    ensures pace { (rate : Rate) (before : List Step) → HasReceived rate incoming.old [] → T.steps inlet.old ≡ Some before
        → (low : Option ℕ) × PacesOn rate before (T.steps inlet.new) (T.published inlet.new) incoming.new low }
    ensures taken { (rate : Rate) → HasReceived rate incoming.old []
        → (x : List ℤ) × IsFed rate incoming.new (T.published inlet.new) x × (2 * length x ≤ 2 ^ 40 + 1) }
    ensures room { length (T.published inlet.new) ≤ 2 ^ 40 + 1 }
    ensures later { (T.told inlet.old).faults ≤ (T.told inlet.new).faults }
    ensures read { result ≡ PumpEnd.ReadFault → HasRisen (T.told inlet.old).faults (T.told inlet.new).faults }
    ensures faultless { result ≢ PumpEnd.ReadFault → (T.told inlet.new).faults ≡ (T.told inlet.old).faults }
{
    let mut low = None;
    let mut buffer = [0; PIECE];
    let mut total: usize = 0;
    'reading: while total <= MOST_INPUT {
        let room = PIECE.min(MOST_INPUT + 1 - total);
        let Ok(count) = inlet.read(&mut buffer[..room]) else {
            return PumpEnd::ReadFault;
        };
        if count == 0 {
            return PumpEnd::InputEnd;
        }
        publish(inlet, &mut low, incoming, &buffer[..count]);
        total += count;
    }
    PumpEnd::TooLong
}

/// Publishes the samples that these octets settle; `low` is the low octet of a sample that is not whole yet.
fn publish<T: Inlet>(inlet: &mut T, low: &mut Option<u8>, incoming: &mut Incoming, octets: &[u8])
    requires room { length (T.published inlet.old) + length octets.now < 2 ^ 48 - 2 }
    ensures input { T.input inlet.new ≡ T.input inlet.old }
    ensures output { T.output inlet.new ≡ T.output inlet.old }
    ensures ring { T.ring inlet.new ≡ T.ring inlet.old }
    ensures taken { (rate : Rate) (x : List ℤ) → IsFed rate incoming.old (T.published inlet.old) x
        → HasTaken rate x low.old octets.now low.new incoming.new (T.published inlet.new) }
    ensures few { length (T.published inlet.new) ≤ length (T.published inlet.old) + length octets.now }
    ensures steps { (more : List ℤ) × (T.published inlet.new ≡ T.published inlet.old ++ more)
        × ((before : List Step) → T.steps inlet.old ≡ Some before
        → T.steps inlet.new ≡ Some (before ++ map Publishes more)) }
    ensures source { T.told inlet.new ≡ T.told inlet.old }
{
    for octet in octets {
        push_octet(inlet, low, incoming, *octet);
    }
}

/// Publishes the sample that is settled by the octet, if one is.
fn push_octet<T: Inlet>(inlet: &mut T, low: &mut Option<u8>, incoming: &mut Incoming, octet: u8)
    requires room { length (T.published inlet.old) < 2 ^ 48 - 2 }
    ensures input { T.input inlet.new ≡ T.input inlet.old }
    ensures output { T.output inlet.new ≡ T.output inlet.old }
    ensures ring { T.ring inlet.new ≡ T.ring inlet.old }
    ensures fed { (rate : Rate) (x : List ℤ) → IsFed rate incoming.old (T.published inlet.old) x
        → IsFed rate incoming.new (T.published inlet.new) (x ++ ended low.old octet) }
    ensures steps { (more : List ℤ) × (T.published inlet.new ≡ T.published inlet.old ++ more)
        × (length more ≤ 1)
        × ((before : List Step) → T.steps inlet.old ≡ Some before
        → T.steps inlet.new ≡ Some (before ++ map Publishes more)) }
    ensures rest { low.new ≡ odd_after low.old octet }
    ensures source { T.told inlet.new ≡ T.told inlet.old }
{
    let Some(sample) = take_octet(low, octet) else {
        return;
    };
    if let Some(settled) = incoming.push(sample) {
        inlet.publish(settled);
    }
}

/// The sample whose high octet comes with this, if a low octet came before.
fn take_octet(low: &mut Option<u8>, octet: u8) -> Option<i16>
    ensures sample { result ≡ option_map (λ first. sample_of first octet) low.old }
    ensures rest { low.new ≡ odd_after low.old octet }
{
    match low.take() {
        Some(first) => Some(sample_of(first, octet)),
        None => {
            *low = Some(octet);
            None
        }
    }
}

/// Publishes the samples that nothing more has to come for, at the end.
fn publish_rest<T: Inlet>(inlet: &mut T, incoming: &mut Incoming)
    requires room { length (T.published inlet.old) ≤ 2 ^ 40 + 1 }
    ensures input { T.input inlet.new ≡ T.input inlet.old }
    ensures output { T.output inlet.new ≡ T.output inlet.old }
    ensures ring { T.ring inlet.new ≡ T.ring inlet.old }
    ensures rest { (rate : Rate) (x : List ℤ) → IsFed rate incoming.old (T.published inlet.old) x
        → T.published inlet.new ≡ received rate x }
    ensures steps { (more : List ℤ) × (T.published inlet.new ≡ T.published inlet.old ++ more)
        × ((before : List Step) → T.steps inlet.old ≡ Some before
        → T.steps inlet.new ≡ Some (before ++ map Publishes more)) }
    ensures source { T.told inlet.new ≡ T.told inlet.old }
{
    let mut rest = [0; 15];
    let count = incoming.finish(&mut rest);
    publish_all(inlet, &rest[..count]);
}

/// Publishes samples.
fn publish_all<T: Inlet>(inlet: &mut T, samples: &[i16])
    requires room { length (T.published inlet.old) + length samples.now < 2 ^ 48 - 2 }
    ensures input { T.input inlet.new ≡ T.input inlet.old }
    ensures output { T.output inlet.new ≡ T.output inlet.old }
    ensures ring { T.ring inlet.new ≡ T.ring inlet.old }
    ensures published { T.published inlet.new ≡ T.published inlet.old ++ samples.now }
    ensures steps { (before : List Step) → T.steps inlet.old ≡ Some before
        → T.steps inlet.new ≡ Some (before ++ map Publishes samples.now) }
    ensures source { T.told inlet.new ≡ T.told inlet.old }
{
    for sample in samples {
        inlet.publish(*sample);
    }
}
