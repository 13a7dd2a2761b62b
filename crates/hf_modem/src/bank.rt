//! The lanes of the 32 offsets of a bit. With each sample the window of one of them ends.

ghost use Rattle.std.specs.Prelude.{◌≡◌, ◌↔◌, ℕ, ◌+◌, ◌/◌, ◌%◌, ◌<◌, ◌≤◌, ◌^◌, ℤ, List, [], ◌∷◌, ◌++◌, length, IfOk};
ghost use Rattle.std.specs.Prelude.{IfSome, IsTrue, OnOk};
ghost use Rattle.std.specs.List.{All};
ghost use Rattle.std.specs.Option.{option_to_list};
ghost use Rattle.tone_table.specs.declared.tone.Tone.{Tone};
ghost use Rattle.nrzi_bits.specs.Line.{bits_of};
ghost use Rattle.hdlc_framer.specs.Held.{flags_asked};
ghost use Rattle.block_receiver.specs.Hearing.{CanBePut};
ghost use Rattle.hf_modem.specs.Busy.{HearsCarrier};
ghost use Rattle.hf_modem.specs.Candidates.{AreCandidatesAfter, end_sample};
ghost use Rattle.slicer_bank.specs.ToneLanes.{ToneLaneStandsFor};
ghost use Rattle.hf_modem.specs.Held.{AsksFor, BankStandsFor, LanesStandFor};
ghost use Rattle.hf_modem.specs.Heard.{IsHeard};

use crate::decision::hf_decide;
use crate::recent::Recent;
use crate::window::WINDOW;
use frame_merge::Candidate;
use slicer_bank::ToneLane;
use std::alloc::Global;
use std::marker::Model;
use tnc_base::{Octets, OutOfMemory};
use tone_table::Tone;

/// The samples of which one end tells the quarter.
pub const SAMPLES_AN_END: u64 = 4;

/// 32 lanes, one for each offset of a bit, and the last window: `new`, then `push` for each sample. It gives each
/// candidate, unmerged. A call that wants memory may leave a lane without a frame that ended there.
#[derive(Drop)]
pub struct HfBank {
    alloc: Global,
    lanes: Vec<ToneLane>,
    recent: Recent,
    position: u64,
    flags: u8,
}

impl Model for HfBank {
    ghost use Rattle.std.specs.Prelude.{◌≡◌, ◌≤◌, length};
    ghost use Rattle.std.specs.List.{All};
    ghost use Rattle.hf_modem.specs.Held.{HeldBank, AsksFor};

    ghost Value = { HeldBank };

    ghost view = { λ s. record {
      lanes = s.lanes.items;
      recent = s.recent;
      position = s.position;
      flags = s.flags;
    } };

    ghost invariant = { λ s. (length s.lanes.items ≡ 32) × All (AsksFor s.flags) s.lanes.items
        × (1 ≤ s.flags) × (s.flags ≤ 8) };
}

impl HfBank {
    /// 32 lanes that have taken nothing and listen for so many flags in a row, 1 to 8.
    pub fn new(alloc: Global, flags: u8) -> Result<HfBank, OutOfMemory>
        requires { (1 ≤ flags) × (flags ≤ 8) }
        ensures stands_for { IfOk result (λ bank. BankStandsFor bank []) }
        ensures position { IfOk result (λ bank. bank.position ≡ 0) }
        ensures flags { IfOk result (λ bank. bank.flags ≡ flags) }
    {
        Ok(HfBank {
            alloc,
            lanes: new_lanes(alloc, flags)?,
            recent: Recent::new(),
            position: 0,
            flags,
        })
    }

    /// Begins anew, as if it had taken nothing.
    pub fn restart(&mut self) -> Result<(), OutOfMemory>
        ensures stands_for { OnOk result (BankStandsFor self.new []) }
        ensures position { OnOk result (self.new.position ≡ 0) }
        ensures flags { self.new.flags ≡ self.old.flags }
    {
        *self = HfBank::new(self.alloc, self.flags)?;
        Ok(())
    }

    /// Takes one sample, and gives the candidate that ends with it, if one does.
    pub fn push(&mut self, sample: i16) -> Result<Option<Candidate>, OutOfMemory>
        requires { self.old.position + 1 < 2 ^ 48 }
        ensures heard { IfOk result (λ heard. (x : List ℤ) → BankStandsFor self.old x
            → BankStandsFor self.new (x ++ sample ∷ [])
            × AreCandidatesAfter (length x) (x ++ sample ∷ []) (option_to_list heard)) }
        ensures bounds { IfOk result (λ heard. IfSome heard (CanBePut 32)) }
        ensures late { IfOk result (λ heard. IfSome heard (λ item. self.old.position / 4 ≤ item.end)) }
        ensures place { IfOk result (λ heard. IfSome heard (λ item. (end_sample item ≡ self.old.position + 1)
            × (item.offset ≡ (self.old.position + 1) % 32))) }
        ensures position { self.new.position ≡ self.old.position + 1 }
        ensures flags { self.new.flags ≡ self.old.flags }
    {
        self.recent.push(sample);
        self.position += 1;
        if self.position < WINDOW {
            return Ok(None);
        }
        let offset = (self.position % WINDOW) as u8;
        let tone = hf_decide(self.recent.window());
        let lane = &mut self.lanes[usize::from(offset)];
        let heard = hear(self.alloc, lane, offset, self.position, tone)?;
        Ok(heard)
    }

    /// How many samples were taken.
    pub fn position(&self) -> u64
        ensures { result ≡ self.now.position }
    {
        self.position
    }

    /// Whether another station is heard: in some lane so many flags in a row have come as the bank listens for, and
    /// since then neither seven 1s in a row nor 10,000 bits without a flag.
    pub fn busy(&self) -> bool
        ensures { (x : List ℤ) → BankStandsFor self.now x → (IsTrue result ↔ HearsCarrier self.now.flags x) }
    {
        is_some_busy(&self.lanes)
    }
}

/// The lanes of the 32 offsets, which have taken nothing and listen for so many flags in a row.
fn new_lanes(alloc: Global, flags: u8) -> Result<Vec<ToneLane>, OutOfMemory>
    requires { (1 ≤ flags) × (flags ≤ 8) }
    ensures count { IfOk result (λ lanes. length lanes.items ≡ 32) }
    ensures stand_for { IfOk result (λ lanes. LanesStandFor lanes.items []) }
    ensures ask { IfOk result (λ lanes. All (AsksFor flags) lanes.items) }
{
    let mut lanes = Vec::new(alloc);
    for _ in 0..WINDOW {
        lanes.push(ToneLane::listening(flags))?;
    }
    Ok(lanes)
}

/// Whether the bits of some lane hold a carrier.
fn is_some_busy(lanes: &[ToneLane]) -> bool
    requires { length lanes.now ≡ 32 }
    ensures { (flags : ℕ) (x : List ℤ) → LanesStandFor lanes.now x → All (AsksFor flags) lanes.now
        → (IsTrue result ↔ HearsCarrier flags x) }
{
    for lane in lanes {
        if lane.busy() {
            return true;
        }
    }
    false
}

/// Gives the lane of an offset the tone of its next window, which ends at sample `at`. Tells the frame that ends with
/// it.
fn hear(
    alloc: Global,
    lane: &mut ToneLane,
    offset: u8,
    at: u64,
    tone: Tone,
) -> Result<Option<Candidate>, OutOfMemory>
    requires { offset < 32 }
    ensures stands_for { (tones : List Tone) → ToneLaneStandsFor lane.old tones
        → ToneLaneStandsFor lane.new (tones ++ tone ∷ []) }
    ensures heard { IfOk result (λ heard. (tones : List Tone) → ToneLaneStandsFor lane.old tones
        → IsHeard offset at (bits_of (tones ++ tone ∷ [])) heard) }
    ensures bounds { IfOk result (λ heard. IfSome heard (CanBePut 32)) }
    ensures end { IfOk result (λ heard. IfSome heard (λ item. (item.end ≡ at / 4) × (item.offset ≡ offset))) }
    ensures asks { flags_asked lane.new.deframer ≡ flags_asked lane.old.deframer }
{
    if !lane.push(tone) {
        return Ok(None);
    }
    let octets = Octets::from_slice(alloc, lane.octets())?;
    Ok(Some(Candidate {
        end: at / SAMPLES_AN_END,
        offset,
        octets,
    }))
}
