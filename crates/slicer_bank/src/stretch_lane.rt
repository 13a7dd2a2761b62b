//! One lane that hears stretches of samples: those between two gaps.
ghost use Rattle.std.specs.Prelude.{◌≡◌, ◌<◌};

use crate::detection::Detection;
use crate::tone_listening::{is_busy, restart, tones_if, weigh};
use hdlc_framer::{Deframer, Event};
use offset_slicers::Slicer;
use tone_carrier::CarrierLane;

/// The slicer of one offset of a bit, the deframer of its bits, and what weighs its windows if it listens for tones.
#[derive(Drop)]
pub struct StretchLane {
    pub(crate) offset: u8,
    pub(crate) slicer: Slicer,
    pub(crate) deframer: Deframer,
    pub(crate) tones: Option<CarrierLane>,
    ghost lane: { offset < 8 },
    ghost slices: { slicer.offset ≡ offset },
}

impl StretchLane {
    ghost use Rattle.std.specs.Prelude.{ℕ, ◌+◌, ◌^◌, ◌≤◌, ◌↔◌, List, true, is_some, IsTrue};
    ghost use Rattle.hdlc_framer.specs.Frames.{IsFrame};
    ghost use Rattle.hdlc_framer.specs.Held.{HoldsFrame, flags_asked};
    ghost use Rattle.slicer_bank.specs.Detection.{CanBeAsked, HearsStation};
    ghost use Rattle.slicer_bank.specs.Stretches.{Stretch, stretch_at, with_sample};
    ghost use Rattle.slicer_bank.specs.StretchLanes.{StretchStandsFor, ListensAs, EndsLast};

    /// A lane at position 0 that has heard nothing, and listens as it is asked to.
    pub(crate) fn new(offset: u8, detection: Detection) -> StretchLane
        requires lane { offset < 8 }
        requires detection { CanBeAsked detection }
        ensures stands_for { StretchStandsFor result (stretch_at 0) }
        ensures offset { result.offset ≡ offset }
        ensures listens { ListensAs detection result }
        ensures position { result.slicer.position ≡ 0 }
    {
        StretchLane {
            offset,
            slicer: Slicer::new(offset),
            deframer: Deframer::listening(detection.flags()),
            tones: tones_if(detection.listens_for_tones(offset)),
        }
    }

    /// Takes the next sample, and says whether a frame ends with it.
    pub(crate) fn push(&mut self, sample: i16) -> bool
        requires { self.old.slicer.position < 2 ^ 48 }
        ensures stands_for { (s : Stretch) → StretchStandsFor self.old s
            → StretchStandsFor self.new (with_sample s sample) }
        ensures holds { result ≡ true → (octets : List ℕ) × IsFrame octets × HoldsFrame self.new.deframer octets }
        ensures heard { (s : Stretch) → StretchStandsFor self.old s → result ≡ true
            → (octets : List ℕ) × EndsLast self.old.offset (with_sample s sample) octets }
        ensures frame { (s : Stretch) (octets : List ℕ) → StretchStandsFor self.old s
            → EndsLast self.old.offset (with_sample s sample) octets
            → (result ≡ true) × HoldsFrame self.new.deframer octets }
        ensures offset { self.new.offset ≡ self.old.offset }
        ensures flags { flags_asked self.new.deframer ≡ flags_asked self.old.deframer }
        ensures tones { is_some self.new.tones ≡ is_some self.old.tones }
        ensures position { self.new.slicer.position ≡ self.old.slicer.position + 1 }
    {
        let Some(sliced) = self.slicer.slice(sample) else {
            return false;
        };
        weigh(&mut self.tones, &sliced.window, &sliced.decision);
        self.deframer.push(sliced.bit) == Event::Frame
    }

    /// Begins a new stretch at `to`.
    pub(crate) fn begin(&mut self, to: u64)
        requires { (self.old.slicer.position ≤ to) × (to ≤ 2 ^ 48) }
        ensures stands_for { StretchStandsFor self.new (stretch_at to) }
        ensures offset { self.new.offset ≡ self.old.offset }
        ensures flags { flags_asked self.new.deframer ≡ flags_asked self.old.deframer }
        ensures tones { is_some self.new.tones ≡ is_some self.old.tones }
        ensures position { self.new.slicer.position ≡ to }
    {
        self.slicer.skip(to);
        self.deframer.reset();
        restart(&mut self.tones);
    }

    /// The octets of the frame that the last sample ended, without its check sequence.
    pub(crate) fn octets(&self) -> &[u8]
        requires { (octets : List ℕ) × IsFrame octets × HoldsFrame self.now.deframer octets }
        ensures { (octets : List ℕ) → IsFrame octets → HoldsFrame self.now.deframer octets → result.now ≡ octets }
    {
        self.deframer.octets()
    }

    /// Whether a station is heard in the stretch, by what the lane was asked to listen for.
    pub(crate) fn hears(&self, detection: Detection) -> bool
        ensures { (s : Stretch) → StretchStandsFor self.now s → ListensAs detection self.now
            → (IsTrue result ↔ HearsStation detection self.now.offset s) }
    {
        match detection {
            Detection::Flags(_) => self.deframer.busy(),
            Detection::Tones => is_busy(&self.tones),
        }
    }
}
