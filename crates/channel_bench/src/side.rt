//! A station of the bench, with its host program and what it hears.
ghost use Rattle.std.specs.Prelude.{◌≡◌, ◌≢◌, ◌==◌, not, filter, ◌+◌, ◌-◌, ◌*◌, ◌<◌, ◌≤◌, ◌^◌, ◌↔◌, ℕ, IsTrue, List, []};
ghost use Rattle.std.specs.Prelude.{◌++◌, length, drop, All, Any, Some, None, Ok, IfOk, IfSome, OnOk, OnErr, is_some};
ghost use Rattle.std.specs.Prelude.{true};
ghost use Rattle.std.specs.Result.{IsErrOf};
ghost use Rattle.link_machine.specs.Params.{HasWindows};
ghost use Rattle.link_machine.specs.declared.fault.NewFault.{NewFault};
ghost use Rattle.station.specs.Held.{without_ids};
ghost use Rattle.std.specs.Bool.{IsFalse};
ghost use Rattle.hdlc_framer.specs.FrameLength.{HasFrameLength};
ghost use Rattle.station.specs.declared.host_event.HostEvent.{HostEvent};
ghost use Rattle.station.specs.declared.host_event.PortKind.{PortKind};
ghost use Rattle.channel_bench.specs.declared.words.BenchWords.{BenchWords};
ghost use Rattle.station_laws.specs.JointRun.Input.{FromHost, OffAir};
ghost use Rattle.channel_bench.specs.BenchState.{SideState, Near, new_side, config_of};
ghost use Rattle.channel_bench.specs.BenchSteps.{GoesOn, MayCome, IsStep, IsTold, IsTicking, IsHeardAt, AreHeardAt};
ghost use Rattle.channel_bench.specs.BenchSteps.{is_coming, number_of, or_coming};
ghost use Rattle.channel_bench.specs.BenchSteps.{told_piece, told_pieces, first_unquiet, trouble_of, with_matched};
ghost use Rattle.channel_bench.specs.BenchTick.{IsGiven};
ghost use Rattle.channel_bench.specs.Hearing.{AreReady};
ghost use Rattle.channel_bench.specs.Sounding.{passed_below, sent_in, with_loss, with_samples};
ghost use Rattle.channel_bench.specs.Words.{seed_at, text_at};

use crate::ear::Ear;
use crate::flight::is_ask;
use crate::matching::SentAt;
use crate::program::Program;
use crate::requests::data;
use crate::shared::Shared;
use agwpe_port::{AgwIn, read_messages};
use channel_access::{AirTick, Sent};
use frame_merge::Candidate;
use link_machine::NewFault;
use link_world::End;
use station::{Config, HostEvent, HostOut, Memory, Piece, PortKind, Station, TickOut};
use std::alloc::Global;
use tnc_base::{Octets, OutOfMemory};

/// The connection of the host program.
pub(crate) const PROGRAM: u32 = 1;

/// The samples of a tick.
const TICK: u64 = 96;

/// A connection waits while so many frames wait to be sent.
const MOST_WAITING: usize = 100;

/// One of the two stations.
#[derive(Drop)]
pub struct Side {
    alloc: Global,
    end: End,
    station: Station,
    /// The connections that are there.
    there: Vec<u32>,
    reader: AgwIn,
    pub(crate) program: Program,
    ear: Ear,
    /// The frames that were sent towards it.
    towards: Vec<SentAt>,
    /// One past the number of the frame that was matched last.
    matched: usize,
    /// What it sends in this tick.
    pub(crate) air: AirTick,
    /// The transmission that it sends is lost.
    pub(crate) silenced: bool,
    /// Whether memory was refused, but to the station.
    pub(crate) memory: Memory,
    ghost within: { matched ≤ length towards.items + 1 },
}

impl Side {
    ghost use Rattle.station.specs.Held.{IsAdmitted};
    ghost use Rattle.channel_bench.specs.HeldBench.{StandsForSide, StandsForWays, StandsForNear, MovesNear};
    ghost use Rattle.channel_bench.specs.HeldBench.{WantsMemory, heard_by};
    ghost use Rattle.station_laws.specs.InFlight.{BothWays, queueing_all};

    /// A station to which nothing came yet.
    pub(crate) fn new(
        alloc: Global,
        end: End,
        config: Config,
        blocks: bool,
        seed: u64,
    ) -> Result<Side, OutOfMemory>
        requires { HasWindows config.params }
        ensures { (w : BenchWords) → config ≡ config_of w → blocks ≡ is_some w.checks → seed ≡ seed_at w end
            → IfOk result (λ side. StandsForSide end side (new_side w end)) }
    {
        let station = of_fitting_windows(Station::new(alloc, config, seed))?;
        let ear = Ear::new(alloc, blocks)?;
        Ok(Side {
            alloc,
            end,
            station,
            there: Vec::new(alloc),
            reader: AgwIn::new(alloc),
            program: Program::new(alloc),
            ear,
            towards: Vec::new(alloc),
            matched: 0,
            air: AirTick {
                samples: [0; 96],
                began: false,
                sent: None,
            },
            silenced: false,
            memory: Memory::new(alloc),
        })
    }

    /// The connection is there, the station takes octets of it, and few frames wait.
    pub(crate) fn accepts(&self, id: u32) -> bool
        ensures accepts { (end : End) (side : SideState) (octets : List ℕ) → StandsForSide end self.now side
            → (IsTrue result ↔ MayCome (HostEvent.Bytes id octets) side) }
        ensures admitted { (octets : List ℕ) → IsTrue result → length octets ≤ 4096
            → (end : End) (side : SideState) → StandsForSide end self.now side
            → IsAdmitted (HostEvent.Bytes id octets) self.now.station }
    {
        is_among(&self.there, id)
            && self.station.accepts(id)
            && self.station.waiting() < MOST_WAITING
    }

    /// No connection of the id is there.
    fn is_new(&self, id: u32) -> bool
        ensures may { (end : End) (side : SideState) (kind : PortKind) → StandsForSide end self.now side
            → (IsTrue result ↔ MayCome (HostEvent.Joined id kind) side) }
        ensures admitted { IsTrue result → (end : End) (side : SideState) (kind : PortKind)
            → StandsForSide end self.now side → IsAdmitted (HostEvent.Joined id kind) self.now.station }
    {
        !is_among(&self.there, id)
    }

    /// A connection joins, if none of its id is there.
    pub(crate) fn join(
        &mut self,
        shared: &mut Shared,
        id: u32,
        kind: PortKind,
    ) -> Result<(), OutOfMemory>
        requires { (end : End) × (n : Near) × StandsForNear end self.old shared.old n }
        ensures told { (end : End) → OnOk result
            (MovesNear end (IsTold end (HostEvent.Joined id kind)) self.old self.new shared.old shared.new) }
        ensures wanted { OnErr result (WantsMemory self.new) }
    {
        if !self.is_new(id) {
            return Ok(());
        }
        self.enter(shared, id, kind)?;
        Ok(())
    }

    /// A connection joins under a new id.
    fn enter(&mut self, shared: &mut Shared, id: u32, kind: PortKind) -> Result<(), OutOfMemory>
        requires { IsAdmitted (HostEvent.Joined id kind) self.old.station }
        ensures step { (end : End) (n : Near) → StandsForNear end self.old shared.old n → n.common.trouble ≡ None
            → OnOk result ((next : Near) × IsStep end (FromHost (HostEvent.Joined id kind)) None n next
            × StandsForNear end self.new shared.new next) }
        ensures wanted { OnErr result (WantsMemory self.new) }
    {
        self.memory.push(&mut self.there, id)?;
        let out = self.station.host(HostEvent::Joined { id, kind })?;
        leave_all(&mut self.there, &out.closed);
        self.settle(shared, false, &out)?;
        Ok(())
    }

    /// A connection says octets, if the station takes them.
    pub(crate) fn say(
        &mut self,
        shared: &mut Shared,
        id: u32,
        octets: Octets,
    ) -> Result<(), OutOfMemory>
        requires stands { (end : End) × (n : Near) × StandsForNear end self.old shared.old n }
        requires most { length octets ≤ 4096 }
        ensures told { (end : End) → OnOk result
            (MovesNear end (IsTold end (HostEvent.Bytes id octets)) self.old self.new shared.old shared.new) }
        ensures wanted { OnErr result (WantsMemory self.new) }
    {
        if !self.accepts(id) {
            return Ok(());
        }
        self.bring(shared, id, octets)?;
        Ok(())
    }

    /// The host program gives the next piece of a text, if the station takes it.
    pub(crate) fn give(&mut self, shared: &mut Shared, text: &[u8]) -> Result<(), OutOfMemory>
        requires { (end : End) × (n : Near) × StandsForNear end self.old shared.old n }
        ensures given { (end : End) (w : BenchWords) → text.now ≡ text_at w end
            → OnOk result (MovesNear end (IsGiven w end) self.old self.new shared.old shared.new) }
        ensures wanted { OnErr result (WantsMemory self.new) }
    {
        if !self.accepts(PROGRAM) {
            return Ok(());
        }
        let Some(piece) = self.program.next_piece(text) else {
            return Ok(());
        };
        let octets = self.memory.took(data(self.alloc, self.end, piece))?;
        self.program.give(&mut self.memory, piece)?;
        self.bring(shared, PROGRAM, octets)?;
        Ok(())
    }

    /// A connection says octets that the station takes.
    pub(crate) fn bring(
        &mut self,
        shared: &mut Shared,
        id: u32,
        octets: Octets,
    ) -> Result<(), OutOfMemory>
        requires { IsAdmitted (HostEvent.Bytes id octets) self.old.station }
        ensures step { (end : End) (n : Near) → StandsForNear end self.old shared.old n → n.common.trouble ≡ None
            → OnOk result ((next : Near) × IsStep end (FromHost (HostEvent.Bytes id octets)) None n next
            × StandsForNear end self.new shared.new next) }
        ensures wanted { OnErr result (WantsMemory self.new) }
    {
        let out = self.station.host(HostEvent::Bytes { id, octets })?;
        leave_all(&mut self.there, &out.closed);
        self.settle(shared, false, &out)?;
        Ok(())
    }

    /// The station ticks.
    pub(crate) fn tick(&mut self, shared: &mut Shared) -> Result<(), OutOfMemory>
        ensures ticked { (end : End) (n : Near) → StandsForNear end self.old shared.old n → n.common.trouble ≡ None
            → OnOk result ((next : Near) × IsTicking end n next × StandsForNear end self.new shared.new next) }
        ensures wanted { OnErr result (WantsMemory self.new) }
    {
        let busy = self.ear.busy();
        let TickOut { air, out } = self.station.tick(busy)?;
        self.settle(shared, false, &out)?;
        self.air = air;
        Ok(())
    }

    /// A transmission that begins draws a word, and may be lost.
    pub(crate) fn draw_loss(&mut self, shared: &mut Shared, loss: u8)
        requires { (shared.old.transmissions < 2 ^ 40) × (shared.old.lost < 2 ^ 40) }
        ensures drawn { (end : End) (n : Near) → StandsForNear end self.old shared.old n
            → StandsForNear end self.new shared.new (with_loss loss n) }
        ensures ear { self.new.ear ≡ self.old.ear }
        ensures few { (shared.new.transmissions ≤ shared.old.transmissions + 1)
            × (shared.new.lost ≤ shared.old.lost + 1) }
    {
        if !self.air.began {
            return;
        }
        self.silenced = shared.draw_loss(loss);
    }

    /// Samples of a tick reach it, and the frame whose sending has ended at the sender. Gives the frames that are
    /// ready.
    pub(crate) fn take_in(
        &mut self,
        tick: u64,
        sender: &Side,
        samples: &[i16],
    ) -> Result<Vec<Candidate>, OutOfMemory>
        requires stands { (end : End) × (side : SideState) × StandsForSide end self.old side }
        requires few { heard_by self.old.ear < 2 ^ 47 }
        requires tick { tick < 2 ^ 32 }
        requires samples { length samples.now ≡ 96 }
        ensures heard { (end : End) (side : SideState) → StandsForSide end self.old side → IfOk result (λ items.
            StandsForSide end self.new (with_samples samples.now (sent_in tick sender.now.air.sent) side)
            × AreReady side.blocks (side.samples ++ samples.now) items.items) }
        ensures lengths { IfOk result (λ items. All (λ item. HasFrameLength item.octets) items.items) }
        ensures wanted { OnErr result (self.new.memory.refused ≡ true) }
    {
        note_sent(&mut self.memory, &mut self.towards, tick, &sender.air.sent)?;
        let items = self.ear.listen(&mut self.memory, samples)?;
        Ok(items)
    }

    /// The station hears the frames that are ready, until something ends the run.
    pub(crate) fn hear_all(
        &mut self,
        shared: &mut Shared,
        items: &[Candidate],
    ) -> Result<(), OutOfMemory>
        requires { All (λ item. HasFrameLength item.octets) items.now }
        ensures heard { (end : End) (n : Near) → StandsForNear end self.old shared.old n
            → OnOk result ((next : Near) × AreHeardAt end items.now n next
            × StandsForNear end self.new shared.new next) }
        ensures wanted { OnErr result (WantsMemory self.new) }
    {
        for item in items {
            self.hear(shared, item)?;
        }
        Ok(())
    }

    /// The station hears a frame that matches one that was sent, unless something has ended the run.
    fn hear(&mut self, shared: &mut Shared, item: &Candidate) -> Result<(), OutOfMemory>
        requires { HasFrameLength item.now.octets }
        ensures heard { (end : End) (n : Near) → StandsForNear end self.old shared.old n
            → OnOk result ((next : Near) × GoesOn n.common.trouble (IsHeardAt end item.now n next) (next ≡ n)
            × StandsForNear end self.new shared.new next) }
        ensures wanted { OnErr result (WantsMemory self.new) }
    {
        if shared.has_ended() {
            return Ok(());
        }
        let Some(number) = self.number_of(shared, item) else {
            shared.end_by_stray(&mut self.memory, item.octets.as_slice())?;
            return Ok(());
        };
        self.hear_sent(shared, number, item.octets.as_slice())?;
        Ok(())
    }

    /// The number of the frame that a heard one is: that of the first match among those that were sent, or, where blocks
    /// are read, that of the frame whose sending has not ended yet.
    fn number_of(&self, shared: &Shared, item: &Candidate) -> Option<usize>
        ensures number { (end : End) (n : Near) → StandsForNear end self.now shared.now n
            → result ≡ number_of end item.now n }
        ensures within { IfSome result (λ number. number ≤ length self.now.towards.items) }
    {
        match SentAt::first_match(self.unmatched(), self.ear.reads_blocks(), item) {
            Some(place) => Some(self.matched + place),
            None => self.coming_number(shared, item),
        }
    }

    /// The number of the frame whose sending has not ended yet, if a heard one can be that.
    fn coming_number(&self, shared: &Shared, item: &Candidate) -> Option<usize>
        ensures number { (end : End) (n : Near) → StandsForNear end self.now shared.now n
            → result ≡ or_coming (is_coming end item.now n) (length n.side.towards) None }
        ensures within { IfSome result (λ number. number ≡ length self.now.towards.items) }
    {
        if self.is_coming(shared, item) {
            return Some(self.towards.len());
        }
        None
    }

    /// Blocks are read, and a heard frame has the octets of the one whose sending has not ended yet.
    fn is_coming(&self, shared: &Shared, item: &Candidate) -> bool
        ensures { (end : End) (n : Near) → StandsForNear end self.now shared.now n → result ≡ is_coming end item.now n }
    {
        let number = self.towards.len();
        let octets = item.octets.as_slice();
        self.ear.reads_blocks()
            && (self.matched <= number && shared.flight.has_queued(self.end, number, octets))
    }

    /// The frames that were sent after the one that was matched last.
    fn unmatched(&self) -> &[SentAt]
        ensures frames { result.now ≡ drop self.now.matched self.now.towards.items }
        ensures count { length result.now ≡ length self.now.towards.items - self.now.matched }
    {
        &self.towards[self.matched.min(self.towards.len())..]
    }

    /// The station hears the frame of a number.
    fn hear_sent(
        &mut self,
        shared: &mut Shared,
        number: usize,
        octets: &[u8],
    ) -> Result<(), OutOfMemory>
        requires length { HasFrameLength octets.now }
        requires number { number ≤ length self.old.towards.items }
        ensures step { (end : End) (n : Near) → StandsForNear end self.old shared.old n → n.common.trouble ≡ None
            → OnOk result ((next : Near) × IsStep end (OffAir octets.now) (Some number) (with_matched number n) next
            × StandsForNear end self.new shared.new next) }
        ensures wanted { OnErr result (WantsMemory self.new) }
    {
        self.matched = number + 1;
        shared.flight.hear(self.end, number);
        let out = self.station.heard(octets)?;
        self.settle(shared, is_ask(octets), &out)?;
        Ok(())
    }

    /// One past the last frame towards it that is in flight no longer.
    pub(crate) fn passed_below(&self) -> usize
        ensures { (end : End) (side : SideState) → StandsForSide end self.now side → result ≡ passed_below side }
    {
        self.matched + SentAt::count_passed(self.unmatched(), self.ear.mark())
    }

    /// What a step of the station gave: the host program is told, and frames of links join the queue.
    fn settle(
        &mut self,
        shared: &mut Shared,
        on_ask: bool,
        out: &HostOut,
    ) -> Result<(), OutOfMemory>
        ensures side { (end : End) (side : SideState) → StandsForSide end self.old side
            → OnOk result (StandsForSide end self.new (told_pieces out.now.pieces side)) }
        ensures flight { (ways : BothWays) → StandsForWays shared.old.flight ways
            → OnOk result (StandsForWays shared.new.flight (queueing_all self.old.end on_ask out.now.queued ways)) }
        ensures trouble { (ways : BothWays) → StandsForWays shared.old.flight ways → shared.old.trouble ≡ None
            → OnOk result (shared.new.trouble ≡ trouble_of (first_unquiet self.old.end on_ask out.now.queued ways)) }
        ensures rest { (shared.new.draws ≡ shared.old.draws) × (shared.new.transmissions ≡ shared.old.transmissions)
            × (shared.new.lost ≡ shared.old.lost) }
        ensures wanted { OnErr result (WantsMemory self.new) }
    {
        self.tell(&out.pieces)?;
        shared.queue_all(&mut self.memory, self.end, on_ask, &out.queued)?;
        Ok(())
    }

    /// The host program is told pieces, one after another.
    fn tell(&mut self, pieces: &[Piece]) -> Result<(), OutOfMemory>
        ensures told { (end : End) (side : SideState) → StandsForSide end self.old side
            → OnOk result (StandsForSide end self.new (told_pieces pieces.now side)) }
        ensures end { self.new.end ≡ self.old.end }
        ensures wanted { OnErr result (WantsMemory self.new) }
    {
        for piece in pieces {
            self.take(piece)?;
        }
        Ok(())
    }

    /// A piece for a connection. What others than the host program are sent is dropped.
    fn take(&mut self, piece: &Piece) -> Result<(), OutOfMemory>
        ensures told { (end : End) (side : SideState) → StandsForSide end self.old side
            → OnOk result (StandsForSide end self.new (told_piece piece.now side)) }
        ensures end { self.new.end ≡ self.old.end }
        ensures wanted { OnErr result (WantsMemory self.new) }
    {
        if piece.id != PROGRAM {
            return Ok(());
        }
        let messages = self.memory.took(read_messages(
            self.alloc,
            &mut self.reader,
            piece.octets.as_slice(),
        ))?;
        self.program.hear_all(&mut self.memory, &messages)?;
        Ok(())
    }
}

/// A station whose windows fit, unless memory was wanted.
fn of_fitting_windows(answer: Result<Station, NewFault>) -> Result<Station, OutOfMemory>
    requires { (window : ℕ) → ¬ IsErrOf answer (NewFault.BadWindow window) }
    ensures { IfOk result (λ station. answer ≡ Ok station) }
{
    match answer {
        Ok(station) => Ok(station),
        Err(NewFault::Memory) => Err(OutOfMemory),
        Err(NewFault::BadWindow { .. }) => unreachable!(),
    }
}

/// Notes a frame whose sending has ended in a tick, if one has.
fn note_sent(
    memory: &mut Memory,
    towards: &mut Vec<SentAt>,
    tick: u64,
    sent: &Option<Sent>,
) -> Result<(), OutOfMemory>
    requires { tick < 2 ^ 32 }
    ensures noted { OnOk result (towards.new.items ≡ towards.old.items ++ sent_in tick sent.now) }
    ensures kept { length towards.old.items ≤ length towards.new.items }
    ensures wanted { OnErr result (memory.new.refused ≡ true) }
{
    match sent {
        Some(sent) => {
            let octets = memory.copy(sent.octets.as_slice())?;
            let end = end_of(tick, sent.after);
            memory.took(towards.push(SentAt { octets, end }))
        }
        None => Ok(()),
    }
}

/// The true end of a frame, so many samples after the beginning of a tick.
fn end_of(tick: u64, after: u8) -> u64
    requires { tick < 2 ^ 32 }
    ensures { result ≡ 96 * tick + after }
{
    TICK * tick + u64::from(after)
}

/// The id is one of these.
fn is_among(ids: &[u32], id: u32) -> bool
    ensures some { IsTrue result ↔ Any (λ other. other ≡ id) ids.now }
    ensures none { IsFalse result ↔ All (λ other. other ≢ id) ids.now }
{
    ids.iter().any(|other| *other == id)
}

/// The connections that are closed are there no longer.
fn leave_all(there: &mut Vec<u32>, closed: &[u32])
    ensures { there.new.items ≡ without_ids closed.now there.old.items }
{
    for id in closed {
        leave(there, *id);
    }
}

/// The connection is there no longer.
fn leave(there: &mut Vec<u32>, id: u32)
    ensures { there.new.items ≡ filter (λ other. not (other == id)) there.old.items }
{
    there.retain(|other| *other != id);
}
