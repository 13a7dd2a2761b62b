//! A lane that takes tones: the rule of the line, and a deframer that puts its bits off.

ghost use Rattle.std.specs.Prelude.{◌≡◌, List, ℕ, [], ◌∷◌, ◌++◌, length, true, IfOk};
ghost use Rattle.std.specs.List.{All};
ghost use Rattle.tone_table.specs.declared.tone.Tone.{Tone};
ghost use Rattle.nrzi_bits.specs.Line.{bits_of};
ghost use Rattle.hdlc_framer.specs.Frames.{IsFrame, EndsFrame};
ghost use Rattle.hdlc_framer.specs.Held.{HoldsFrame};
ghost use Rattle.sensitive_receiver.specs.LateLanes.{LaneStandsFor};

use hdlc_framer::LateDeframer;
use nrzi_bits::NrziIn;
use std::alloc::Global;
use std::marker::Model;
use tnc_base::OutOfMemory;
use tone_table::Tone;

/// The rule of inverted NRZ for the tones of one lane, and the deframer of the bits that it gives.
#[derive(Drop)]
pub struct LateLane {
    line: NrziIn,
    plain: LateDeframer,
}

impl Model for LateLane {
    ghost use Rattle.sensitive_receiver.specs.LateLanes.{HeldLane};

    ghost Value = { HeldLane };

    ghost view = { λ s. record {
      line = s.line;
      deframer = s.plain.deframer;
      last = s.plain.last;
      waiting = s.plain.waiting;
    } };
}

impl LateLane {
    /// A lane that has taken nothing.
    pub(crate) fn new() -> LateLane
        ensures stands_for { LaneStandsFor result [] }
    {
        LateLane {
            line: NrziIn::new(),
            plain: LateDeframer::new(),
        }
    }

    /// Takes the next tone, and says whether a frame ends with it.
    #[inline(always)]
    pub(crate) fn push(&mut self, tone: Tone) -> bool
        ensures stands_for { (tones : List Tone) → LaneStandsFor self.old tones
            → LaneStandsFor self.new (tones ++ tone ∷ []) }
        ensures holds { result ≡ true → (octets : List ℕ) × IsFrame octets × HoldsFrame self.new.deframer octets }
        ensures heard { (tones : List Tone) → LaneStandsFor self.old tones → result ≡ true
            → (octets : List ℕ) × EndsFrame (bits_of (tones ++ tone ∷ [])) octets }
        ensures frame { (tones : List Tone) (octets : List ℕ) → LaneStandsFor self.old tones
            → EndsFrame (bits_of (tones ++ tone ∷ [])) octets → (result ≡ true) × HoldsFrame self.new.deframer octets }
    {
        let bit = self.line.step(tone);
        self.plain.push(bit)
    }

    /// The octets of the frame that the last tone ended, without its check sequence.
    pub(crate) fn octets(&self) -> &[u8]
        requires { (octets : List ℕ) × IsFrame octets × HoldsFrame self.now.deframer octets }
        ensures { (octets : List ℕ) → IsFrame octets → HoldsFrame self.now.deframer octets → result.now ≡ octets }
    {
        self.plain.octets()
    }
}

/// So many lanes that have taken nothing.
pub(crate) fn new_lanes(alloc: Global, count: u64) -> Result<Vec<LateLane>, OutOfMemory>
    ensures count { IfOk result (λ lanes. length lanes.items ≡ count) }
    ensures fresh { IfOk result (λ lanes. All (λ lane. LaneStandsFor lane []) lanes.items) }
{
    let mut lanes = Vec::new(alloc);
    for _ in 0..count {
        lanes.push(LateLane::new())?;
    }
    Ok(lanes)
}
