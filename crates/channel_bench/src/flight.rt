//! What is in flight between the two stations, as far as one can see who does not know what will be heard.
ghost use Rattle.std.specs.Prelude.{◌≡◌, ◌+◌, ◌-◌, ◌<◌, ◌^◌, ◌||◌, if◌then◌else◌, drop, slice_get, IfOk, OnOk, OnErr, Some};
ghost use Rattle.std.specs.Prelude.{is_some};
ghost use Rattle.std.specs.Prelude.{true};
ghost use Rattle.std.specs.List.{list_any};
ghost use Rattle.station_laws.specs.InFlight.{OneWay as WayState, BothWays, asks, answers, control_octet, hearing_at};
ghost use Rattle.station_laws.specs.InFlight.{in_flight, is_ask, is_control_of, is_quiet_at, is_quiet_for, is_ua_or_dm};
ghost use Rattle.station_laws.specs.InFlight.{nothing_sent, queueing_all, queueing_at, sent_by, with_front};
ghost use Rattle.station_laws.specs.InFlight.{with_queued, with_sent_by};
ghost use Rattle.channel_bench.specs.BenchSteps.{first_unquiet, count_of, is_frame_of};
ghost use Rattle.link_world.specs.World.{other};

use link_world::End;
use station::Memory;
use std::alloc::Global;
use tnc_base::{Octets, OutOfMemory};

/// The bit of P/F.
const POLL: u8 = 0x10;

/// SABM, SABME and DISC, without P/F.
const SABM: u8 = 0x2f;

const SABME: u8 = 0x6f;

const DISC: u8 = 0x43;

/// UA and DM, without P/F.
const UA: u8 = 0x63;

const DM: u8 = 0x0f;

/// What is kept of a frame that a link queued.
#[derive(Drop)]
pub struct HeldFrame {
    octets: Octets,
    /// It is SABM, SABME or DISC.
    pub asks: bool,
    /// It is a UA or DM that was sent on hearing one.
    pub answers: bool,
}

/// One direction: the frames that links of a station have queued, and the number from which on they are in flight.
#[derive(Drop)]
pub struct OneWay {
    queued: Vec<HeldFrame>,
    front: usize,
}

impl OneWay {
    ghost use Rattle.channel_bench.specs.HeldBench.{StandsForWay};

    fn new(alloc: Global) -> OneWay
        ensures { StandsForWay result nothing_sent.from_a }
    {
        OneWay {
            queued: Vec::new(alloc),
            front: 0,
        }
    }

    /// A frame joins the transmit queue.
    fn queue(&mut self, memory: &mut Memory, on_ask: bool, octets: &[u8]) -> Result<(), OutOfMemory>
        ensures queued { (way : WayState) → StandsForWay self.old way → OnOk result
            (StandsForWay self.new (with_queued (record { octets = octets.now; on_ask = on_ask }) way)) }
        ensures wanted { OnErr result (memory.new.refused ≡ true) }
    {
        let frame = HeldFrame {
            octets: memory.copy(octets)?,
            asks: is_ask(octets),
            answers: on_ask && is_ua_or_dm(octets),
        };
        memory.push(&mut self.queued, frame)?;
        Ok(())
    }

    /// Those below a number are in flight no longer.
    fn pass(&mut self, number: usize)
        ensures { (way : WayState) → StandsForWay self.old way → StandsForWay self.new (with_front number way) }
    {
        self.front = self.front.max(number);
    }

    /// The frame of a number has these octets.
    fn has(&self, number: usize, octets: &[u8]) -> bool
        ensures { (way : WayState) → StandsForWay self.now way
            → result ≡ is_frame_of octets.now (slice_get way.queued number) }
    {
        match self.queued.get(number) {
            Some(frame) => frame.octets.as_slice() == octets,
            None => false,
        }
    }

    /// SABM, SABME or DISC is in flight.
    fn asks(&self) -> bool
        ensures { (way : WayState) → StandsForWay self.now way → result ≡ list_any asks (in_flight way) }
    {
        some_asks(&self.queued, self.front)
    }

    /// An answer to one is.
    fn answers(&self) -> bool
        ensures { (way : WayState) → StandsForWay self.now way → result ≡ list_any answers (in_flight way) }
    {
        some_answers(&self.queued, self.front)
    }

    /// A frame finds a quiet channel, if the other way leads back.
    fn is_quiet(&self, back: &OneWay, octets: &[u8]) -> bool
        ensures { (own other : WayState) → StandsForWay self.now own → StandsForWay back.now other
            → result ≡ is_quiet_for octets.now own other }
    {
        !is_ask(octets) || !(self.asks() || back.answers())
    }
}

/// Both directions.
#[derive(Drop)]
pub struct Flight {
    from_a: OneWay,
    from_b: OneWay,
}

impl Flight {
    ghost use Rattle.channel_bench.specs.HeldBench.{StandsForWays};

    /// Nothing is in flight.
    pub(crate) fn new(alloc: Global) -> Flight
        ensures { StandsForWays result nothing_sent }
    {
        Flight {
            from_a: OneWay::new(alloc),
            from_b: OneWay::new(alloc),
        }
    }

    /// How many frames were queued, and one more.
    fn next_number(&self) -> u64
        ensures { (ways : BothWays) → StandsForWays self.now ways → result ≡ count_of ways + 1 }
    {
        self.from_a.queued.len() as u64 + self.from_b.queued.len() as u64 + 1
    }

    /// A frame that joins the transmit queue of a station finds a quiet channel.
    fn is_quiet(&self, sender: End, octets: &[u8]) -> bool
        ensures { (ways : BothWays) → StandsForWays self.now ways → result ≡ is_quiet_at sender octets.now ways }
    {
        match sender {
            End::A => self.from_a.is_quiet(&self.from_b, octets),
            End::B => self.from_b.is_quiet(&self.from_a, octets),
        }
    }

    /// A frame joins the transmit queue of a station.
    fn queue(
        &mut self,
        memory: &mut Memory,
        sender: End,
        on_ask: bool,
        octets: &[u8],
    ) -> Result<(), OutOfMemory>
        ensures queued { (ways : BothWays) → StandsForWays self.old ways
            → OnOk result (StandsForWays self.new (queueing_at sender on_ask octets.now ways)) }
        ensures wanted { OnErr result (memory.new.refused ≡ true) }
    {
        match sender {
            End::A => self.from_a.queue(memory, on_ask, octets),
            End::B => self.from_b.queue(memory, on_ask, octets),
        }
    }

    /// Frames of a step join it, one after another. Answers the number of the first that finds no quiet channel.
    pub(crate) fn queue_all(
        &mut self,
        memory: &mut Memory,
        sender: End,
        on_ask: bool,
        frames: &[Octets],
    ) -> Result<Option<u64>, OutOfMemory>
        ensures queued { (ways : BothWays) → StandsForWays self.old ways
            → OnOk result (StandsForWays self.new (queueing_all sender on_ask frames.now ways)) }
        ensures first { (ways : BothWays) → StandsForWays self.old ways
            → IfOk result (λ first. first ≡ first_unquiet sender on_ask frames.now ways) }
        ensures wanted { OnErr result (memory.new.refused ≡ true) }
    {
        let mut first = None;
        for frame in frames {
            let octets = frame.as_slice();
            first = self.first_with(first, sender, octets);
            self.queue(memory, sender, on_ask, octets)?;
        }
        Ok(first)
    }

    /// The number of the first that finds no quiet channel, with one frame more that is to join.
    fn first_with(&self, first: Option<u64>, sender: End, octets: &[u8]) -> Option<u64>
        ensures { (ways : BothWays) → StandsForWays self.now ways → result
            ≡ (if is_some first || is_quiet_at sender octets.now ways then first else Some (count_of ways + 1)) }
    {
        if first.is_some() || self.is_quiet(sender, octets) {
            first
        } else {
            Some(self.next_number())
        }
    }

    /// The frame of a number that links of the other station queued has these octets.
    pub(crate) fn has_queued(&self, hearer: End, number: usize, octets: &[u8]) -> bool
        ensures { (ways : BothWays) → StandsForWays self.now ways
            → result ≡ is_frame_of octets.now (slice_get (sent_by (other hearer) ways).queued number) }
    {
        match hearer {
            End::A => self.from_b.has(number, octets),
            End::B => self.from_a.has(number, octets),
        }
    }

    /// A station hears the frame of a number.
    pub(crate) fn hear(&mut self, hearer: End, number: usize)
        requires { number < 2 ^ 64 - 1 }
        ensures { (ways : BothWays) → StandsForWays self.old ways
            → StandsForWays self.new (hearing_at hearer (Some number) ways) }
    {
        match hearer {
            End::A => self.from_b.pass(number + 1),
            End::B => self.from_a.pass(number + 1),
        }
    }

    /// The frames of a station with a lower number have passed the other.
    pub(crate) fn pass(&mut self, sender: End, below: usize)
        ensures { (ways : BothWays) → StandsForWays self.old ways
            → StandsForWays self.new (with_sent_by sender (with_front below (sent_by sender ways)) ways) }
    {
        match sender {
            End::A => self.from_a.pass(below),
            End::B => self.from_b.pass(below),
        }
    }
}

/// One of the frames from a number on asks.
fn some_asks(frames: &[HeldFrame], from: usize) -> bool
    ensures { result ≡ list_any (λ frame. frame.asks) (drop from frames.now) }
{
    frames.iter().skip(from).any(|frame| frame.asks)
}

/// One of them answers.
fn some_answers(frames: &[HeldFrame], from: usize) -> bool
    ensures { result ≡ list_any (λ frame. frame.answers) (drop from frames.now) }
{
    frames.iter().skip(from).any(|frame| frame.answers)
}

/// A frame is SABM, SABME or DISC.
pub(crate) fn is_ask(octets: &[u8]) -> bool
    ensures { result ≡ is_ask octets.now }
{
    match control_octet(octets) {
        Some(octet) => {
            is_control_of(SABM, octet)
                || (is_control_of(SABME, octet) || is_control_of(DISC, octet))
        }
        None => false,
    }
}

/// A frame is UA or DM.
fn is_ua_or_dm(octets: &[u8]) -> bool
    ensures { result ≡ is_ua_or_dm octets.now }
{
    match control_octet(octets) {
        Some(octet) => is_control_of(UA, octet) || is_control_of(DM, octet),
        None => false,
    }
}

/// The octet is a control octet, with P/F or without.
fn is_control_of(control: u8, octet: u8) -> bool
    requires { control < 240 }
    ensures { result ≡ is_control_of control octet }
{
    octet == control || octet == control + POLL
}

/// The octet after the address field, whose last octet alone has bit 0 set.
fn control_octet(octets: &[u8]) -> Option<u8>
    ensures { result ≡ control_octet octets.now }
{
    let mut rest = octets;
    while let Some((octet, after)) = rest.split_first() {
        if *octet % 2 == 1 {
            return after.first().copied();
        }
        rest = after;
    }
    None
}
