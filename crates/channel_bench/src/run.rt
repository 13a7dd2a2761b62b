//! Two stations joined by audio, tick by tick.
ghost use Rattle.std.specs.Prelude.{◌≡◌, ◌+◌, ◌++◌, ◌<◌, ◌≤◌, ◌^◌, ℕ, All, List, None, length, IfOk, OnOk, OnErr};
ghost use Rattle.channel_bench.specs.declared.words.BenchWords.{BenchWords};
ghost use Rattle.channel_bench.specs.BenchRun.{is_over, report_of};
ghost use Rattle.hdlc_framer.specs.FrameLength.{HasFrameLength};
ghost use Rattle.station.specs.Held.{IsAdmitted};
ghost use Rattle.station.specs.declared.host_event.HostEvent.{HostEvent};
ghost use Rattle.channel_bench.specs.BenchState.{BenchState, SideState, AtEnd, config_of, modem_of, new_bench};
ghost use Rattle.channel_bench.specs.BenchSteps.{AreHeardAt, IsTold, IsTicking};
ghost use Rattle.channel_bench.specs.BenchTick.{ArePartsMade, IsAsked, IsAskedOrCalled, IsCalled, IsGiven};
ghost use Rattle.channel_bench.specs.Hearing.{AreReady};
ghost use Rattle.channel_bench.specs.BenchTick.{IsTick, beginning, each_tick, is_complete, joins, sets_duplex};
ghost use Rattle.channel_bench.specs.BenchTick.{sets_full_duplex};
ghost use Rattle.channel_bench.specs.Sounding.{reaching, sounding, ticked, with_losses};
ghost use Rattle.channel_bench.specs.Words.{AreInRange};

use crate::air::{SAMPLES, sends, with_noise};
use crate::report::BenchReport;
use crate::requests::{connect, disconnect, full_duplex, register};
use crate::shared::Shared;
use crate::side::{PROGRAM, Side};
use crate::words::{BenchWords, text};
use channel_access::{AirTick, CheckOctets, Modem};
use frame_merge::Candidate;
use link_machine::Params;
use link_world::End;
use selective_reject::Mode;
use station::{Config, Memory, PortKind};
use std::alloc::Global;
use tnc_base::{Octets, OutOfMemory};

/// The KISS connection that sets full duplex.
const KISS: u32 = 2;

/// The streams of the two texts.
const TEXT_OF_A: u64 = 3;

const TEXT_OF_B: u64 = 4;

/// A run so far.
#[derive(Drop)]
pub struct Run {
    alloc: Global,
    words: BenchWords,
    a: Side,
    b: Side,
    pub(crate) shared: Shared,
    text_of_a: Octets,
    text_of_b: Octets,
    pub(crate) ticks: u64,
    closing: bool,
    /// Whether memory was refused beside the stations.
    memory: Memory,
}

/// The samples that reach both stations in a tick.
#[derive(Drop)]
struct Both {
    to_a: Vec<i16>,
    to_b: Vec<i16>,
}

/// What both stations hear in a tick.
#[derive(Drop)]
struct Ready {
    at_a: Vec<Candidate>,
    at_b: Vec<Candidate>,
}

impl Run {
    ghost use Rattle.channel_bench.specs.HeldBench.{StandsForRun, MovesRun, Unless, acts, hears, sounds, reaching_a};
    ghost use Rattle.channel_bench.specs.HeldBench.{IsCounted, RunWants, heard_by};
    ghost use Rattle.channel_bench.specs.HeldBench.{reaching_b, with_both, with_noise_drawn};

    /// Before the first tick.
    pub(crate) fn new(alloc: Global, words: BenchWords) -> Result<Run, OutOfMemory>
        ensures stands_for { IfOk result (λ run. StandsForRun run words (new_bench words)) }
        ensures ticks { IfOk result (λ run. run.ticks ≡ 0) }
    {
        let text_of_a = text(alloc, words.seed, TEXT_OF_A, words.octets)?;
        let text_of_b = text(alloc, words.seed, TEXT_OF_B, words.octets)?;
        let blocks = words.checks.is_some();
        let a = Side::new(alloc, End::A, config_of(&words), blocks, words.seed)?;
        let seed = words.seed.wrapping_add(1);
        let b = Side::new(alloc, End::B, config_of(&words), blocks, seed)?;
        Ok(Run {
            alloc,
            words,
            a,
            b,
            shared: Shared::new(alloc, words.seed),
            text_of_a,
            text_of_b,
            ticks: 0,
            closing: false,
            memory: Memory::new(alloc),
        })
    }

    /// A has sent d, and both host programs were told d after it.
    pub(crate) fn is_over(&self) -> bool
        ensures { (w : BenchWords) (bench : BenchState) → StandsForRun self.now w bench → result ≡ is_over bench }
    {
        self.closing && (self.a.program.told() && self.b.program.told())
    }

    /// What came to pass.
    pub(crate) fn report(&mut self) -> Result<BenchReport, OutOfMemory>
        ensures told { (w : BenchWords) (bench : BenchState) → StandsForRun self.old w bench
            → IfOk result (λ report. report ≡ report_of bench) }
        ensures wanted { OnErr result (RunWants self.new) }
    {
        Ok(BenchReport {
            ticks: self.ticks,
            transmissions: self.shared.transmissions,
            lost: self.shared.lost,
            a: self.a.program.take_set_ups(&mut self.a.memory)?,
            b: self.b.program.take_set_ups(&mut self.b.memory)?,
        })
    }

    /// Makes a tick.
    pub(crate) fn tick(&mut self) -> Result<(), OutOfMemory>
        requires stands { (w : BenchWords) × (bench : BenchState) × StandsForRun self.old w bench × AreInRange w
            × IsCounted bench }
        requires few { self.old.ticks < 2 ^ 32 }
        ensures tick { (w : BenchWords) → OnOk result (MovesRun w (IsTick w) self.old self.new) }
        ensures count { OnOk result (self.new.ticks ≤ self.old.ticks + 1) }
        ensures wanted { OnErr result (RunWants self.new) }
    {
        if self.ticks > 0 {
            self.make_parts()?;
            return Ok(());
        }
        self.begin()?;
        self.make_parts()?;
        Ok(())
    }

    /// Before all else in the first tick connections join, calls are registered, and A calls.
    fn begin(&mut self) -> Result<(), OutOfMemory>
        requires { (w : BenchWords) × (bench : BenchState) × StandsForRun self.old w bench }
        ensures begun { (w : BenchWords) → OnOk result (MovesRun w (ArePartsMade w (beginning w)) self.old self.new) }
        ensures ticks { self.new.ticks ≡ self.old.ticks }
        ensures wanted { OnErr result (RunWants self.new) }
    {
        self.set_duplex()?;
        self.join_program(End::A)?;
        self.join_program(End::B)?;
        let call = self.memory.took(connect(self.alloc, End::A))?;
        self.say(End::A, PROGRAM, call)?;
        Ok(())
    }

    /// Both stations are set to full duplex, if the words ask for it.
    fn set_duplex(&mut self) -> Result<(), OutOfMemory>
        requires { (w : BenchWords) × (bench : BenchState) × StandsForRun self.old w bench }
        ensures set { (w : BenchWords) → OnOk result (MovesRun w (ArePartsMade w (sets_duplex w)) self.old self.new) }
        ensures ticks { self.new.ticks ≡ self.old.ticks }
        ensures wanted { OnErr result (RunWants self.new) }
    {
        if !self.words.full {
            return Ok(());
        }
        self.set_full_duplex(End::A)?;
        self.set_full_duplex(End::B)?;
        Ok(())
    }

    /// A KISS connection sets a station to full duplex.
    fn set_full_duplex(&mut self, end: End) -> Result<(), OutOfMemory>
        requires { (w : BenchWords) × (bench : BenchState) × StandsForRun self.old w bench }
        ensures set { (w : BenchWords) → OnOk result
            (MovesRun w (ArePartsMade w (sets_full_duplex end)) self.old self.new) }
        ensures ticks { self.new.ticks ≡ self.old.ticks }
        ensures wanted { OnErr result (RunWants self.new) }
    {
        self.join(end, KISS, PortKind::Kiss)?;
        let octets = self.memory.took(full_duplex(self.alloc))?;
        self.say(end, KISS, octets)?;
        Ok(())
    }

    /// A host program joins, and registers the call of its station.
    fn join_program(&mut self, end: End) -> Result<(), OutOfMemory>
        requires { (w : BenchWords) × (bench : BenchState) × StandsForRun self.old w bench }
        ensures joined { (w : BenchWords) → OnOk result (MovesRun w (ArePartsMade w (joins end)) self.old self.new) }
        ensures ticks { self.new.ticks ≡ self.old.ticks }
        ensures wanted { OnErr result (RunWants self.new) }
    {
        self.join(end, PROGRAM, PortKind::Agw)?;
        let octets = self.memory.took(register(self.alloc, end))?;
        self.say(end, PROGRAM, octets)?;
        Ok(())
    }

    /// A connection joins.
    fn join(&mut self, end: End, id: u32, kind: PortKind) -> Result<(), OutOfMemory>
        requires { (w : BenchWords) × (bench : BenchState) × StandsForRun self.old w bench }
        ensures joined { (w : BenchWords) → OnOk result
            (MovesRun w (Unless (AtEnd end (IsTold end (HostEvent.Joined id kind)))) self.old self.new) }
        ensures ticks { self.new.ticks ≡ self.old.ticks }
        ensures wanted { OnErr result (RunWants self.new) }
    {
        if self.shared.has_ended() {
            return Ok(());
        }
        match end {
            End::A => self.a.join(&mut self.shared, id, kind)?,
            End::B => self.b.join(&mut self.shared, id, kind)?,
        }
        Ok(())
    }

    /// A connection says octets.
    fn say(&mut self, end: End, id: u32, octets: Octets) -> Result<(), OutOfMemory>
        requires stands { (w : BenchWords) × (bench : BenchState) × StandsForRun self.old w bench }
        requires most { length octets ≤ 4096 }
        ensures said { (w : BenchWords) → OnOk result
            (MovesRun w (Unless (AtEnd end (IsTold end (HostEvent.Bytes id octets)))) self.old self.new) }
        ensures ticks { self.new.ticks ≡ self.old.ticks }
        ensures wanted { OnErr result (RunWants self.new) }
    {
        if self.shared.has_ended() {
            return Ok(());
        }
        match end {
            End::A => self.a.say(&mut self.shared, id, octets)?,
            End::B => self.b.say(&mut self.shared, id, octets)?,
        }
        Ok(())
    }

    /// The parts of every tick.
    fn make_parts(&mut self) -> Result<(), OutOfMemory>
        requires stands { (w : BenchWords) × (bench : BenchState) × StandsForRun self.old w bench × AreInRange w
            × IsCounted bench }
        requires few { self.old.ticks < 2 ^ 32 }
        ensures made { (w : BenchWords) → OnOk result (MovesRun w (ArePartsMade w each_tick) self.old self.new) }
        ensures count { OnOk result (self.new.ticks ≤ self.old.ticks + 1) }
        ensures wanted { OnErr result (RunWants self.new) }
    {
        self.act()?;
        self.sound()?;
        Ok(())
    }

    /// Hosts and stations act.
    fn act(&mut self) -> Result<(), OutOfMemory>
        requires { (w : BenchWords) × (bench : BenchState) × StandsForRun self.old w bench }
        ensures made { (w : BenchWords) → OnOk result (MovesRun w (ArePartsMade w acts) self.old self.new) }
        ensures ticks { self.new.ticks ≡ self.old.ticks }
        ensures wanted { OnErr result (RunWants self.new) }
    {
        self.give(End::A)?;
        self.ask_or_call()?;
        self.give(End::B)?;
        self.tick_station(End::A)?;
        self.tick_station(End::B)?;
        Ok(())
    }

    /// What both stations send reaches them, and is heard.
    fn sound(&mut self) -> Result<(), OutOfMemory>
        requires stands { (w : BenchWords) × (bench : BenchState) × StandsForRun self.old w bench × AreInRange w
            × IsCounted bench }
        requires few { self.old.ticks < 2 ^ 32 }
        ensures made { (w : BenchWords) → OnOk result (MovesRun w (ArePartsMade w sounds) self.old self.new) }
        ensures count { OnOk result (self.new.ticks ≤ self.old.ticks + 1) }
        ensures wanted { OnErr result (RunWants self.new) }
    {
        if self.shared.has_ended() {
            return Ok(());
        }
        let ready = self.carry()?;
        self.hear_both(&ready)?;
        Ok(())
    }

    /// What both stations send reaches them. Gives the frames that are ready.
    fn carry(&mut self) -> Result<Ready, OutOfMemory>
        requires stands { (w : BenchWords) × (bench : BenchState) × StandsForRun self.old w bench × AreInRange w
            × IsCounted bench }
        requires few { self.old.ticks < 2 ^ 32 }
        ensures carried { (w : BenchWords) (bench : BenchState) → StandsForRun self.old w bench
            → OnOk result (StandsForRun self.new w (sounding w bench)) }
        ensures ready { (w : BenchWords) (bench : BenchState) → StandsForRun self.old w bench → IfOk result (λ ready.
            AreReady (sounding w bench).a.blocks (sounding w bench).a.samples ready.at_a.items
            × AreReady (sounding w bench).b.blocks (sounding w bench).b.samples ready.at_b.items) }
        ensures lengths { IfOk result (λ ready. All (λ item. HasFrameLength item.octets) ready.at_a.items
            × All (λ item. HasFrameLength item.octets) ready.at_b.items) }
        ensures ticks { self.new.ticks ≡ self.old.ticks }
        ensures wanted { OnErr result (RunWants self.new) }
    {
        self.draw_losses();
        let both = self.add_noise()?;
        let ready = self.take_in(&both)?;
        Ok(ready)
    }

    /// Both stations hear the frames that are ready, and the tick ends.
    fn hear_both(&mut self, ready: &Ready) -> Result<(), OutOfMemory>
        requires lengths { All (λ item. HasFrameLength item.octets) ready.now.at_a.items
            × All (λ item. HasFrameLength item.octets) ready.now.at_b.items }
        requires few { self.old.ticks < 2 ^ 32 }
        ensures heard { (w : BenchWords) (bench : BenchState) → StandsForRun self.old w bench
            → AreReady bench.a.blocks bench.a.samples ready.now.at_a.items
            → AreReady bench.b.blocks bench.b.samples ready.now.at_b.items
            → OnOk result ((next : BenchState) × ArePartsMade w hears bench next × StandsForRun self.new w next) }
        ensures count { OnOk result (self.new.ticks ≤ self.old.ticks + 1) }
        ensures wanted { OnErr result (RunWants self.new) }
    {
        self.hear(End::A, &ready.at_a)?;
        self.hear(End::B, &ready.at_b)?;
        self.close();
        Ok(())
    }

    /// A host program gives the next piece of its text, if its station takes it.
    fn give(&mut self, end: End) -> Result<(), OutOfMemory>
        requires { (w : BenchWords) × (bench : BenchState) × StandsForRun self.old w bench }
        ensures given { (w : BenchWords) → OnOk result
            (MovesRun w (Unless (AtEnd end (IsGiven w end))) self.old self.new) }
        ensures ticks { self.new.ticks ≡ self.old.ticks }
        ensures wanted { OnErr result (RunWants self.new) }
    {
        if self.shared.has_ended() {
            return Ok(());
        }
        match end {
            End::A => self.a.give(&mut self.shared, self.text_of_a.as_slice())?,
            End::B => self.b.give(&mut self.shared, self.text_of_b.as_slice())?,
        }
        Ok(())
    }

    /// A sends d once all is given and got, or C again, if its station takes it.
    fn ask_or_call(&mut self) -> Result<(), OutOfMemory>
        requires { (w : BenchWords) × (bench : BenchState) × StandsForRun self.old w bench }
        ensures asked { (w : BenchWords) → OnOk result (MovesRun w (Unless (IsAskedOrCalled w)) self.old self.new) }
        ensures ticks { self.new.ticks ≡ self.old.ticks }
        ensures wanted { OnErr result (RunWants self.new) }
    {
        if self.shared.has_ended() {
            return Ok(());
        }
        if !self.a.accepts(PROGRAM) {
            return Ok(());
        }
        if self.is_complete() {
            self.ask()?;
            return Ok(());
        }
        if self.a.program.calls() {
            self.call()?;
            return Ok(());
        }
        Ok(())
    }

    /// A sends d.
    fn ask(&mut self) -> Result<(), OutOfMemory>
        requires { (octets : List ℕ) → length octets ≤ 4096 → IsAdmitted (HostEvent.Bytes 1 octets) self.old.a.station }
        ensures asked { (w : BenchWords) (bench : BenchState) → StandsForRun self.old w bench
            → bench.common.trouble ≡ None → OnOk result ((next : BenchState) × IsAsked bench next
            × StandsForRun self.new w next) }
        ensures ticks { self.new.ticks ≡ self.old.ticks }
        ensures wanted { OnErr result (RunWants self.new) }
    {
        let octets = self.memory.took(disconnect(self.alloc, End::A))?;
        self.a.program.ask();
        self.b.program.wait();
        self.closing = true;
        self.a.bring(&mut self.shared, PROGRAM, octets)?;
        Ok(())
    }

    /// A sends C again.
    fn call(&mut self) -> Result<(), OutOfMemory>
        requires { (octets : List ℕ) → length octets ≤ 4096 → IsAdmitted (HostEvent.Bytes 1 octets) self.old.a.station }
        ensures called { (w : BenchWords) (bench : BenchState) → StandsForRun self.old w bench
            → bench.common.trouble ≡ None → OnOk result ((next : BenchState) × IsCalled bench next
            × StandsForRun self.new w next) }
        ensures ticks { self.new.ticks ≡ self.old.ticks }
        ensures wanted { OnErr result (RunWants self.new) }
    {
        let octets = self.memory.took(connect(self.alloc, End::A))?;
        self.a.program.call();
        self.a.bring(&mut self.shared, PROGRAM, octets)?;
        Ok(())
    }

    /// A set-up runs at both sides in which all is given and got, and A has not sent d in it.
    fn is_complete(&self) -> bool
        ensures { (w : BenchWords) (bench : BenchState) → StandsForRun self.now w bench → result ≡ is_complete w bench }
    {
        let count = self.words.octets as usize;
        !self.a.program.asked() && (self.a.program.has_all(count) && self.b.program.has_all(count))
    }

    /// A station ticks.
    fn tick_station(&mut self, end: End) -> Result<(), OutOfMemory>
        ensures ticked { (w : BenchWords) → OnOk result
            (MovesRun w (Unless (AtEnd end (IsTicking end))) self.old self.new) }
        ensures ticks { self.new.ticks ≡ self.old.ticks }
        ensures wanted { OnErr result (RunWants self.new) }
    {
        if self.shared.has_ended() {
            return Ok(());
        }
        match end {
            End::A => self.a.tick(&mut self.shared)?,
            End::B => self.b.tick(&mut self.shared)?,
        }
        Ok(())
    }

    /// The transmissions that begin are lost, or not.
    fn draw_losses(&mut self)
        requires { (self.old.shared.transmissions < 2 ^ 36) × (self.old.shared.lost < 2 ^ 36) }
        ensures lost { (w : BenchWords) (bench : BenchState) → StandsForRun self.old w bench
            → StandsForRun self.new w (with_losses w.loss bench) }
        ensures ears { (self.new.a.ear ≡ self.old.a.ear) × (self.new.b.ear ≡ self.old.b.ear) }
        ensures ticks { self.new.ticks ≡ self.old.ticks }
    {
        self.a.draw_loss(&mut self.shared, self.words.loss);
        self.b.draw_loss(&mut self.shared, self.words.loss);
    }

    /// The samples that reach both stations.
    fn add_noise(&mut self) -> Result<Both, OutOfMemory>
        requires { (w : BenchWords) × (bench : BenchState) × StandsForRun self.old w bench × AreInRange w }
        ensures ears { (self.new.a.ear ≡ self.old.a.ear) × (self.new.b.ear ≡ self.old.b.ear) }
        ensures drawn { (w : BenchWords) (bench : BenchState) → StandsForRun self.old w bench
            → OnOk result (StandsForRun self.new w (with_noise_drawn w bench)) }
        ensures samples { (w : BenchWords) (bench : BenchState) → StandsForRun self.old w bench → IfOk result (λ both.
            (both.to_a.items ≡ reaching_a w bench) × (both.to_b.items ≡ reaching_b w bench)) }
        ensures lengths { IfOk result (λ both. (length both.to_a.items ≡ 96) × (length both.to_b.items ≡ 96)) }
        ensures ticks { self.new.ticks ≡ self.old.ticks }
        ensures wanted { OnErr result (RunWants self.new) }
    {
        let to_b = reaching(self.words.full, &self.a, &self.b);
        let to_a = reaching(self.words.full, &self.b, &self.a);
        let noisy_b = self.memory.took(with_noise(
            self.alloc,
            &mut self.shared.draws,
            self.words.noise,
            &to_b,
        ))?;
        let noisy_a = self.memory.took(with_noise(
            self.alloc,
            &mut self.shared.draws,
            self.words.noise,
            &to_a,
        ))?;
        Ok(Both {
            to_a: noisy_a,
            to_b: noisy_b,
        })
    }

    /// Samples reach both stations, with the frames that were sent. Gives the frames that are ready.
    fn take_in(&mut self, both: &Both) -> Result<Ready, OutOfMemory>
        requires stands { (w : BenchWords) × (bench : BenchState) × StandsForRun self.old w bench }
        requires few { self.old.ticks < 2 ^ 32 }
        requires ears { (heard_by self.old.a.ear < 2 ^ 47) × (heard_by self.old.b.ear < 2 ^ 47) }
        requires lengths { (length both.now.to_a.items ≡ 96) × (length both.now.to_b.items ≡ 96) }
        ensures taken { (w : BenchWords) (bench : BenchState) → StandsForRun self.old w bench
            → OnOk result (StandsForRun self.new w (with_both both.now.to_a.items both.now.to_b.items bench)) }
        ensures ready { (w : BenchWords) (bench : BenchState) → StandsForRun self.old w bench → IfOk result (λ ready.
            AreReady bench.a.blocks (bench.a.samples ++ both.now.to_a.items) ready.at_a.items
            × AreReady bench.b.blocks (bench.b.samples ++ both.now.to_b.items) ready.at_b.items) }
        ensures lengths { IfOk result (λ ready. All (λ item. HasFrameLength item.octets) ready.at_a.items
            × All (λ item. HasFrameLength item.octets) ready.at_b.items) }
        ensures ticks { self.new.ticks ≡ self.old.ticks }
        ensures wanted { OnErr result (RunWants self.new) }
    {
        let at_a = self.a.take_in(self.ticks, &self.b, &both.to_a)?;
        let at_b = self.b.take_in(self.ticks, &self.a, &both.to_b)?;
        Ok(Ready { at_a, at_b })
    }

    /// A station hears the frames that are ready.
    fn hear(&mut self, end: End, items: &[Candidate]) -> Result<(), OutOfMemory>
        requires { All (λ item. HasFrameLength item.octets) items.now }
        ensures heard { (w : BenchWords) → OnOk result
            (MovesRun w (AtEnd end (AreHeardAt end items.now)) self.old self.new) }
        ensures ticks { self.new.ticks ≡ self.old.ticks }
        ensures wanted { OnErr result (RunWants self.new) }
    {
        match end {
            End::A => self.a.hear_all(&mut self.shared, items)?,
            End::B => self.b.hear_all(&mut self.shared, items)?,
        }
        Ok(())
    }

    /// The tick ends.
    fn close(&mut self)
        requires { self.old.ticks < 2 ^ 32 }
        ensures closed { (w : BenchWords)
            → MovesRun w (Unless (λ before after. after ≡ ticked before)) self.old self.new }
        ensures count { self.new.ticks ≤ self.old.ticks + 1 }
    {
        if self.shared.has_ended() {
            return;
        }
        self.shared.flight.pass(End::A, self.b.passed_below());
        self.shared.flight.pass(End::B, self.a.passed_below());
        self.ticks += 1;
    }
}

ghost use Rattle.std.specs.Prelude.{◌||◌, ◌&&◌, not};
ghost use Rattle.channel_bench.specs.HeldBench.{StandsForSide};
ghost use Rattle.channel_bench.specs.Sounding.{sends};

/// The samples that one station sends the other, or silence if they do not reach it.
fn reaching(full: bool, sender: &Side, hearer: &Side) -> [i16; SAMPLES]
    ensures { (one other : End) (from to : SideState) → StandsForSide one sender.now from
        → StandsForSide other hearer.now to → result ≡ reaching full from to }
{
    if is_silent(full, sender.silenced, &hearer.air) {
        [0; SAMPLES]
    } else {
        sender.air.samples
    }
}

/// Nothing reaches a station: the transmission is lost, or the station sends itself in half duplex.
fn is_silent(full: bool, lost: bool, own: &AirTick) -> bool
    ensures { result ≡ (lost || (not full && sends own.now)) }
{
    lost || (!full && sends(&own.samples))
}

/// What both stations are made with.
fn config_of(words: &BenchWords) -> Config
    ensures { result ≡ config_of words.now }
{
    let params = Params {
        mode: Mode::Srej,
        window: 4,
        wide: words.wide,
        wide_mode: Mode::Srej,
        wide_window: 32,
        t1: 200,
        retries: 10,
    };
    let mut config = Config::new(params, None);
    config.modem = modem_of(words.checks);
    config
}

/// The modem that both stations send by.
fn modem_of(checks: Option<CheckOctets>) -> Modem
    ensures { result ≡ modem_of checks }
{
    match checks {
        Some(checks) => Modem::Fx25(checks),
        None => Modem::Bell202,
    }
}
