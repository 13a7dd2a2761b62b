//! What a pump works with: an input, and a ring in which it publishes samples.
//!
//! Both are one object to the pump, which can tell in which order they were used.
ghost use Rattle.std.specs.Prelude.{◌≡◌, ℕ, ℤ, ◌-◌, ◌^◌, ◌<◌, ◌≤◌, List, [], ◌∷◌, ◌++◌, Option, Some, None, length};
ghost use Rattle.std.specs.Prelude.{take, IfOk, OnErr};
ghost use Rattle.atomic_table.specs.Seated.{TableId};
ghost use Rattle.sample_ring.specs.Ends.{ring_id, writer_ring, published_by};
ghost use Rattle.tnc_base.specs.Faults.{HasRisen};
ghost use Rattle.tnc_base.specs.Streams.{SourceTold, Gives};
ghost use Rattle.tnc_ports.specs.Inlet.{Step};
ghost use Rattle.tnc_ports.specs.Inlet.Step.{Reads, Publishes};

use sample_ring::{Ring, Writer};
use tnc_base::{Failed, Source};

/// An input of octets, and where the samples of them are published.
pub trait Inlet {
    /// Which input it has. No call changes that.
    ghost input: { Self → ℕ };

    /// Which writer it has. No call changes that.
    ghost output: { Self → ℕ };

    /// Which ring it has. No call changes that.
    ghost ring: { Self → TableId };

    /// What was done so far, in order, if the object tells it.
    ghost steps: { Self → Option (List Step) };

    /// The octets that are left, if the object tells them, and how often a read has failed.
    ghost told: { Self → SourceTold };

    /// All samples that were published.
    ghost published: { Self → List ℤ };

    /// Reads the first of the octets that are left and answers how many. 0 means that none are left.
    fn read(&mut self, buffer: &mut [u8]) -> Result<usize, Failed>
        ensures bound { IfOk result (λ count. count ≤ length buffer.new) }
        ensures gives { (octets : List ℕ) → (told self.old).left ≡ Some octets
            → IfOk result (λ count. Gives octets (told self.new).left buffer.new count) }
        ensures kept { OnErr result ((told self.new).left ≡ (told self.old).left) }
        ensures input { input self.new ≡ input self.old }
        ensures output { output self.new ≡ output self.old }
        ensures ring { ring self.new ≡ ring self.old }
        ensures published { published self.new ≡ published self.old }
        ensures told { (before : List Step) → steps self.old ≡ Some before
            → IfOk result (λ count. steps self.new ≡ Some (before ++ Reads (take count buffer.new) ∷ [])) }
        ensures untold { OnErr result (steps self.new ≡ steps self.old) }
        ensures later { (told self.old).faults ≤ (told self.new).faults }
        ensures failed { OnErr result (HasRisen (told self.old).faults (told self.new).faults) }
        ensures faultless { IfOk result (λ _. (told self.new).faults ≡ (told self.old).faults) };

    /// Publishes a sample.
    fn publish(&mut self, sample: i16)
        requires room { length (published self.old) < 2 ^ 48 - 2 }
        ensures input { input self.new ≡ input self.old }
        ensures output { output self.new ≡ output self.old }
        ensures ring { ring self.new ≡ ring self.old }
        ensures published { published self.new ≡ published self.old ++ sample ∷ [] }
        ensures told { (before : List Step) → steps self.old ≡ Some before
            → steps self.new ≡ Some (before ++ Publishes sample ∷ []) }
        ensures source { told self.new ≡ told self.old };
}

/// An input, and a ring with its writer.
pub(crate) struct RingInlet<'a, 'b, 'c, I> {
    pub(crate) source: &'a mut I,
    pub(crate) ring: &'b Ring,
    pub(crate) writer: &'c mut Writer,
    ghost same: { writer_ring writer.now ≡ ring_id ring.now },
}

impl<I: Source> Inlet for RingInlet<'_, '_, '_, I> {
    ghost input = { λ s. s.source.ghost_name };

    ghost output = { λ s. s.writer.ghost_name };

    ghost ring = { λ s. writer_ring s.writer.now };

    ghost steps = { λ _. None };

    ghost told = { λ s. I.told s.source.now };

    ghost published = { λ s. published_by s.writer.now };

    fn read(&mut self, buffer: &mut [u8]) -> Result<usize, Failed> {
        self.source.read(buffer)
    }

    fn publish(&mut self, sample: i16) {
        self.writer.publish(self.ring, sample).unwrap();
    }
}
