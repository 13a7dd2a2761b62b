//! What the two stations of the bench share: the channel between them.
ghost use Rattle.std.specs.Prelude.{◌≡◌, ◌+◌, ◌<◌, ◌^◌, if◌then◌else◌, Some, None, IfOk, OnOk, OnErr, is_some, true};
ghost use Rattle.channel_bench.specs.declared.trouble.Trouble.TheVariants.{Stray};
ghost use Rattle.channel_bench.specs.declared.words.BenchWords.{BenchWords};

use crate::flight::Flight;
use crate::trouble::Trouble;
use link_world::End;
use rand_core::utils::NextWord;
use rand_pcg::Lcg64Xsh32;
use station::Memory;
use std::alloc::Global;
use tnc_base::{Octets, OutOfMemory};

/// The channel between the two stations, and what came to pass in it.
#[derive(Drop)]
pub struct Shared {
    pub(crate) flight: Flight,
    /// The words of losses and of noise.
    pub(crate) draws: Lcg64Xsh32,
    /// How many transmissions began, and how many of them were lost.
    pub(crate) transmissions: u64,
    pub(crate) lost: u64,
    /// What ended the run before it was over.
    pub(crate) trouble: Option<Trouble>,
}

/// The stream of losses and of noise.
const STREAM: u64 = 2;

impl Shared {
    ghost use Rattle.channel_bench.specs.BenchState.{new_common};
    ghost use Rattle.channel_bench.specs.BenchSteps.{first_unquiet, trouble_of};
    ghost use Rattle.channel_bench.specs.HeldBench.{StandsForCommon, StandsForWays};
    ghost use Rattle.station_laws.specs.InFlight.{BothWays, queueing_all};
    ghost use Rattle.channel_bench.specs.Sounding.{is_lost};
    ghost use Rattle.channel_access.specs.Words.{after_word};

    /// Nothing came to pass yet.
    pub(crate) fn new(alloc: Global, seed: u64) -> Shared
        ensures { (w : BenchWords) → w.seed ≡ seed → StandsForCommon result (new_common w) }
    {
        Shared {
            flight: Flight::new(alloc),
            draws: Lcg64Xsh32::new(seed, STREAM),
            transmissions: 0,
            lost: 0,
            trouble: None,
        }
    }

    /// Something has ended the run.
    pub(crate) fn has_ended(&self) -> bool
        ensures { result ≡ is_some self.now.trouble }
    {
        self.trouble.is_some()
    }

    /// Frames of a step join the transmit queue of a station.
    pub(crate) fn queue_all(
        &mut self,
        memory: &mut Memory,
        sender: End,
        on_ask: bool,
        frames: &[Octets],
    ) -> Result<(), OutOfMemory>
        ensures flight { (ways : BothWays) → StandsForWays self.old.flight ways
            → OnOk result (StandsForWays self.new.flight (queueing_all sender on_ask frames.now ways)) }
        ensures trouble { (ways : BothWays) → StandsForWays self.old.flight ways → self.old.trouble ≡ None
            → OnOk result (self.new.trouble ≡ trouble_of (first_unquiet sender on_ask frames.now ways)) }
        ensures rest { (self.new.draws ≡ self.old.draws) × (self.new.transmissions ≡ self.old.transmissions)
            × (self.new.lost ≡ self.old.lost) }
        ensures wanted { OnErr result (memory.new.refused ≡ true) }
    {
        if let Some(index) = self.flight.queue_all(memory, sender, on_ask, frames)? {
            self.trouble = Some(Trouble::Unquiet { index });
        }
        Ok(())
    }

    /// A frame of these octets was heard that matches none that was sent.
    pub(crate) fn end_by_stray(
        &mut self,
        memory: &mut Memory,
        octets: &[u8],
    ) -> Result<(), OutOfMemory>
        ensures ended { OnOk result (self.new ≡ record self.old { trouble = Some (Stray octets.now) }) }
        ensures wanted { OnErr result (memory.new.refused ≡ true) }
    {
        let octets = memory.copy(octets)?;
        self.trouble = Some(Trouble::Stray { octets });
        Ok(())
    }

    /// Draws whether a transmission that begins is lost, and counts it.
    pub(crate) fn draw_loss(&mut self, loss: u8) -> bool
        requires { (self.old.transmissions < 2 ^ 40) × (self.old.lost < 2 ^ 40) }
        ensures lost { result ≡ is_lost loss self.old.draws }
        ensures counted { self.new ≡ record self.old {
          draws = after_word self.old.draws;
          transmissions = self.old.transmissions + 1;
          lost = if result then self.old.lost + 1 else self.old.lost;
        } }
    {
        let lost = self.draws.next_word() % 100 < u32::from(loss);
        self.count(lost);
        lost
    }

    /// Counts a transmission that began.
    fn count(&mut self, lost: bool)
        requires { (self.old.transmissions < 2 ^ 40) × (self.old.lost < 2 ^ 40) }
        ensures { self.new ≡ record self.old {
          transmissions = self.old.transmissions + 1;
          lost = if lost then self.old.lost + 1 else self.old.lost;
        } }
    {
        self.transmissions += 1;
        if lost {
            self.lost += 1;
        }
    }
}
