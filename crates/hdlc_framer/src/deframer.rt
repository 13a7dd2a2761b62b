//! Frames out of a line of bits.

ghost use Rattle.std.specs.Prelude.{◌≡◌, ◌↔◌, ℕ, ◌+◌, ◌<◌, ◌≤◌, Bool, true, false, List, [], ◌∷◌, ◌++◌, length, take, IsTrue};
ghost use Rattle.hdlc_framer.specs.BitOrder.{octet_bits};
ghost use Rattle.hdlc_framer.specs.Carrier.{HoldsCarrier};
ghost use Rattle.hdlc_framer.specs.FrameLength.{least_frame_length, most_frame_length};
ghost use Rattle.hdlc_framer.specs.Frames.{IsFrame, EndsFrame};
ghost use Rattle.hdlc_framer.specs.Held.{StandsFor, HoldsFrame, flags_asked, line_of};

use crate::carrier::Carrier;
use crate::event::Event;
use crate::line::LineState;
use std::marker::Model;

/// Finds the frames in a line of bits. It takes no memory beyond its own size, which is that of a longest frame.
#[derive(Drop)]
pub struct Deframer {
    line: LineState,
    framed: bool,
    carrier: Carrier,
}

impl Model for Deframer {
    ghost use Rattle.hdlc_framer.specs.Held.{Held};

    ghost Value = { Held };

    ghost view = { λ d. record { line = d.line; framed = d.framed; carrier = d.carrier } };
}

impl Deframer {
    ghost use Rattle.hdlc_framer.specs.Events.{EventAt};

    /// A deframer in the opening state: no bit has come. It is busy from the first flag on.
    pub fn new() -> Self
        ensures stands_for { StandsFor result [] }
        ensures flags { flags_asked result ≡ 1 }
    {
        Deframer::listening(1)
    }

    /// The same, but it is busy only from so many flags in a row on, 1 to 8: chance makes a single flag of noise often,
    /// and three in a row seldom.
    pub fn listening(flags: u8) -> Self
        requires { (1 ≤ flags) × (flags ≤ 8) }
        ensures stands_for { StandsFor result [] }
        ensures flags { flags_asked result ≡ flags }
    {
        Deframer {
            line: LineState::new(),
            framed: false,
            carrier: Carrier::new(flags),
        }
    }

    /// Goes back to the opening state, as if no bit had come.
    pub fn reset(&mut self)
        ensures stands_for { StandsFor self.new [] }
        ensures flags { flags_asked self.new ≡ flags_asked self.old }
    {
        self.line = LineState::new();
        self.framed = false;
        self.carrier.reset();
    }

    /// Takes the next bit, `true` for a 1, and tells what it ends. A flag that ends a frame opens the next one.
    pub fn push(&mut self, bit: bool) -> Event
        ensures stands_for { (b : List Bool) → StandsFor self.old b → StandsFor self.new (b ++ bit ∷ []) }
        ensures event { (b : List Bool) → StandsFor self.old b → EventAt (b ++ bit ∷ []) result }
        ensures holds { result ≡ Event.Frame
            → (octets : List ℕ) × IsFrame octets × HoldsFrame self.new octets }
        ensures frame { (b : List Bool) → (octets : List ℕ) → StandsFor self.old b
            → EndsFrame (b ++ bit ∷ []) octets → HoldsFrame self.new octets }
        ensures flags { flags_asked self.new ≡ flags_asked self.old }
    {
        self.settle();
        let event = self.line.event(bit);
        self.carrier.push(event);
        if event == Event::Frame {
            self.framed = true;
        } else {
            self.line.next(bit);
        }
        event
    }

    /// Takes eight bits at once, the lowest of an octet first, if none of them ends anything, as is so of most. Otherwise
    /// it takes none of them, and they have to be pushed one by one.
    pub fn push_octet(&mut self, octet: u8) -> bool
        ensures taken { (b : List Bool) → StandsFor self.old b → result ≡ true
            → StandsFor self.new (b ++ octet_bits octet) }
        ensures quiet { (b : List Bool) → (k : ℕ) → (octets : List ℕ) → StandsFor self.old b → result ≡ true → k < 8
            → ¬ EndsFrame (b ++ take (k + 1) (octet_bits octet)) octets }
        ensures left { (b : List Bool) → StandsFor self.old b → result ≡ false → StandsFor self.new b }
        ensures flags { flags_asked self.new ≡ flags_asked self.old }
    {
        self.settle();
        if !self.line.take_octet(octet) {
            return false;
        }
        self.carrier.take_octet();
        true
    }

    // Goes on after the flag that ended the frame, if one is held.
    fn settle(&mut self)
        ensures { self.new ≡ record { line = line_of self.old; framed = false; carrier = self.old.carrier } }
    {
        if self.framed {
            self.framed = false;
            self.line.open();
        }
    }

    /// Whether another station is heard: so many flags in a row have come as this deframer listens for, and since then
    /// neither seven 1s in a row nor 10,000 bits without a flag.
    pub fn busy(&self) -> bool
        ensures busy { (b : List Bool) → StandsFor self.now b → IsTrue result ↔ HoldsCarrier (flags_asked self.now) b }
    {
        self.carrier.is_held()
    }

    /// The octets of the frame that the last bit ended, without its check sequence.
    pub fn octets(&self) -> &[u8]
        requires { (octets : List ℕ) × IsFrame octets × HoldsFrame self.now octets }
        ensures frame { (octets : List ℕ) → IsFrame octets → HoldsFrame self.now octets → result.now ≡ octets }
        ensures least { least_frame_length ≤ length result.now }
        ensures most { length result.now ≤ most_frame_length }
    {
        self.line.frame()
    }
}
