//! One turn of a live station.
//!
//! Each step writes what it has to say once nothing of it can fail any more. So if memory is wanted, no line and no
//! sample is written of a step that did not come to its end.

ghost use Rattle.std.specs.Prelude.{◌≡◌, ℕ, ◌+◌, ◌-◌, ◌*◌, ◌/◌, ◌^◌, ◌<◌, ◌≤◌, Bool, true, false, List, Option, Some};
ghost use Rattle.std.specs.Prelude.{None, map, All, IfOk, OnOk, OnErr, [], ◌||◌, ◌++◌};
ghost use Rattle.hdlc_framer.specs.FrameLength.{HasFrameLength};
ghost use Rattle.keying.specs.Calls.Call.{Tick as KeyTick, AfterWrite as KeyAfterWrite};
ghost use Rattle.key_port.specs.KeyEvents.{KeyEvent};
ghost use Rattle.key_port.specs.KeySides.{reports_in};
ghost use Rattle.channel_access.specs.Sound.{has_sound};
ghost use Rattle.ax25_address.specs.declared.path.Path.{Path};
ghost use Rattle.sample_ring.specs.Ends.{ring_id, ring_len, reader_ring};
ghost use Rattle.live_receiver.specs.LiveReceivers.{readers_in, answers_in, detection_of};
ghost use Rattle.sample_ring.specs.declared.got.Got.{Got};
ghost use Rattle.slicer_bank.specs.RingLanes.{answers_of};
ghost use Rattle.station.specs.Heard.{IsPathOf};
ghost use Rattle.station.specs.Monitored.{heard_modulus, sent_modulus};
ghost use Rattle.host_ports.specs.Sockets.{PortsTold};
ghost use Rattle.host_ports.specs.CutPart.{HasCutPart};
ghost use Rattle.host_ports.specs.declared.report_line.ReportLine.{ReportLine};
ghost use Rattle.tnc_base.specs.Streams.{SinkTold};
ghost use Rattle.tnc_ports.specs.declared.serve_words.KeyWords.{KeyWords};
ghost use Rattle.host_ports.specs.Health.{after_notes, after_tick, notes_of, standing_of};
ghost use Rattle.host_ports.specs.HeldHosts.{StandsFor};
ghost use Rattle.tnc_ports.specs.KeyTurns.{is_held};
ghost use Rattle.tnc_ports.specs.HeldMeter.{Measures};
ghost use Rattle.host_ports.specs.Hosts.{Hosts};
ghost use Rattle.tnc_ports.specs.Sampled.{Live, gap_line};
ghost use Rattle.tnc_ports.specs.SampledFrames.{AreReceivedLines, AreSentLines};
ghost use Rattle.tnc_ports.specs.SampledRun.{IsCutInReading};

use crate::key_lines::put_reports;
use crate::line_texts::{text_of_both, text_of_lines, text_of_notes};
use crate::meter::Meter;
use crate::monitor::frame_text;
use crate::releasing::release_key;
use crate::samples_out::put_samples;
use crate::serve_words::ServeWords;
use crate::sound::has_sound;
use crate::writing::put;
use ax25_address::read_path;
use ax25_frames::Modulus;
use channel_access::AirTick;
use frame_merge::Candidate;
use host_ports::{Health, HealthNotes, HostSide, Ports, ReportLine};
use key_port::{KeyPort, KeyReports, KeySide};
use live_receiver::LiveReceiver;
use ring_receiver::Heard;
use sample_ring::Ring;
use slicer_bank::{LaneGap, OpenGate};
use std::alloc::Global;
use std::net::Net;
use std::sync::Wait;
use std::thread::Threads;
use tnc_base::{Octets, OutOfMemory, Sink};

/// The samples of a tick.
const TICK: u64 = 96;

/// A live station between two turns.
#[derive(Drop)]
pub(crate) struct Turning {
    pub(crate) alloc: Global,
    pub(crate) words: ServeWords,
    pub(crate) hosts: HostSide,
    /// How many ticks were made.
    pub(crate) ticks: u64,
    /// A write failed, so nothing more is written.
    pub(crate) failed: bool,
    /// The key of the transmitter, if it has one.
    pub(crate) key: Option<KeySide>,
    /// The reader of the sound, what was counted, and what makes the sound that goes out.
    pub(crate) meter: Meter,
}

impl Turning {
    ghost use Rattle.tnc_ports.specs.SampledHeld.{Keeps, StandsForLive, HearsFrame, HearsFrames, HearsSome, Ticks};
    ghost use Rattle.tnc_ports.specs.SampledHeld.{TicksAll, ServesAll, Reads, Makes, Turns, IsCutOff, From, KeyedSince};
    ghost use Rattle.tnc_ports.specs.SampledHeld.{KeyStands, TurnsTheKey, IsReleasedSince, DoesForKey};

    /// Makes a turn, and answers whether every reader has met the end of the ring.
    pub(crate) fn turn<R: Threads + Net + Sync, O: Sink, E: Sink, N: Ports, K: KeyPort<O>>(
        &mut self,
        rt: &R,
        ring: &Ring,
        receiver: &mut LiveReceiver,
        output: &mut O,
        report: &mut E,
        ports: &mut N,
        key: &mut K,
    ) -> Result<bool, OutOfMemory>
        requires stands { (live : Live) × StandsForLive self.old (ring_len ring.now) receiver.old live }
        requires readers { All (λ reader. reader_ring reader ≡ ring_id ring.now) (readers_in receiver.old) }
        requires detection { detection_of receiver.old ≡ self.old.words.dcd }
        requires meter { reader_ring self.old.meter.reader ≡ ring_id ring.now }
        ensures turned { (from : From) (live : Live) → StandsForLive self.old (ring_len ring.now) receiver.old live
            → KeyedSince from self.old live (O.told output.old) (E.told report.old) (K.told key.old)
            → IfOk result (λ ended. Turns from ended self.old self.new (ring_len ring.now) receiver.new live
            (O.told output.old) (O.told output.new) (E.told report.old) (E.told report.new)
            (N.told ports.old) (N.told ports.new) (K.told key.new)) }
        ensures cut { (from : From) (live : Live) → StandsForLive self.old (ring_len ring.now) receiver.old live
            → KeyedSince from self.old live (O.told output.old) (E.told report.old) (K.told key.old)
            → OnErr result (IsCutOff from self.old self.new (ring_len ring.now) receiver.new live
            (O.told output.old) (O.told output.new) (E.told report.old) (E.told report.new)
            (N.told ports.old) (N.told ports.new) (K.told key.new)) }
        ensures words { self.new.words ≡ self.old.words }
        ensures readers { All (λ reader. reader_ring reader ≡ ring_id ring.now) (readers_in receiver.new) }
        ensures detection { detection_of receiver.new ≡ detection_of receiver.old }
        ensures meter { reader_ring self.new.meter.reader ≡ ring_id ring.now }
        ensures listens { (N.told ports.new).listens ≡ (N.told ports.old).listens }
        ensures dials { (N.told ports.new).dials ≡ (N.told ports.old).dials }
        ensures later { (N.told ports.old).faults ≤ (N.told ports.new).faults }
    {
        let ended = self.make(rt, ring, receiver, output, report, key)?;
        self.serve_hosts(rt, report, ports)?;
        Ok(ended)
    }

    /// Makes all of a turn that is not for hosts, and answers whether every reader has met the end of the ring. The
    /// samples of its ticks are handed to the output here, before the ports are polled. The key has its turn right
    /// before the ticks.
    fn make<R: Threads + Net + Sync, O: Sink, E: Sink, K: KeyPort<O>>(
        &mut self,
        rt: &R,
        ring: &Ring,
        receiver: &mut LiveReceiver,
        output: &mut O,
        report: &mut E,
        key: &mut K,
    ) -> Result<bool, OutOfMemory>
        requires stands { (live : Live) × StandsForLive self.old (ring_len ring.now) receiver.old live }
        requires readers { All (λ reader. reader_ring reader ≡ ring_id ring.now) (readers_in receiver.old) }
        requires detection { detection_of receiver.old ≡ self.old.words.dcd }
        requires meter { reader_ring self.old.meter.reader ≡ ring_id ring.now }
        ensures made { (from : From) (live : Live) → StandsForLive self.old (ring_len ring.now) receiver.old live
            → KeyedSince from self.old live (O.told output.old) (E.told report.old) (K.told key.old)
            → IfOk result (λ ended. Makes from ended self.old self.new (ring_len ring.now) receiver.new live
            (O.told output.old) (O.told output.new) (E.told report.old) (E.told report.new) (K.told key.new)) }
        ensures cut { (from : From) (live : Live) → StandsForLive self.old (ring_len ring.now) receiver.old live
            → KeyedSince from self.old live (O.told output.old) (E.told report.old) (K.told key.old)
            → OnErr result ((told : PortsTold) → IsCutOff from self.old self.new (ring_len ring.now) receiver.new live
            (O.told output.old) (O.told output.new) (E.told report.old) (E.told report.new) told told
            (K.told key.new)) }
        ensures words { self.new.words ≡ self.old.words }
        ensures readers { All (λ reader. reader_ring reader ≡ ring_id ring.now) (readers_in receiver.new) }
        ensures detection { detection_of receiver.new ≡ detection_of receiver.old }
        ensures meter { reader_ring self.new.meter.reader ≡ ring_id ring.now }
    {
        let heard = self.read(rt, ring, receiver, report)?;
        self.hear_all(report, &heard.items)?;
        self.meter.health.hear(heard.items.len());
        self.turn_key(rt, output, report, key);
        self.tick_up_to(ring, output, report, key, receiver.busy(), heard.least)?;
        Ok(heard.ended)
    }

    /// Lets each reader read on, and reports the gaps.
    fn read<R: Threads + Sync, E: Sink>(
        &mut self,
        rt: &R,
        ring: &Ring,
        receiver: &mut LiveReceiver,
        report: &mut E,
    ) -> Result<Heard, OutOfMemory>
        requires stands { (live : Live) × StandsForLive self.old (ring_len ring.now) receiver.old live }
        requires readers { All (λ reader. reader_ring reader ≡ ring_id ring.now) (readers_in receiver.old) }
        ensures reads { (live : Live) → StandsForLive self.old (ring_len ring.now) receiver.old live
            → IfOk result (λ heard. Reads heard.ended heard.least heard.items.items self.old self.new
            (ring_len ring.now) receiver.new live (E.told report.old) (E.told report.new)) }
        ensures cut { (live : Live) → StandsForLive self.old (ring_len ring.now) receiver.old live
            → OnErr result (IsCutInReading self.old.words live
            (record live { lanes = answers_in (ring_len ring.now) receiver.new })) }
        ensures unwritten { OnErr result ((report.new ≡ report.old) × (self.new.failed ≡ self.old.failed)) }
        ensures rest { (self.new.words ≡ self.old.words) × (self.new.hosts ≡ self.old.hosts)
            × (self.new.ticks ≡ self.old.ticks) × (self.new.key ≡ self.old.key)
            × (self.new.meter ≡ self.old.meter) }
        ensures lengths { IfOk result (λ heard. All (λ item. HasFrameLength item.octets) heard.items.items) }
        ensures readers { All (λ reader. reader_ring reader ≡ ring_id ring.now) (readers_in receiver.new) }
        ensures detection { detection_of receiver.new ≡ detection_of receiver.old }
    {
        let heard = receiver.advance(rt, ring, &OpenGate)?;
        let lines = gap_lines(self.alloc, &heard.gaps)?;
        let text = text_of_lines(self.alloc, &lines)?;
        put(report, &mut self.failed, &text);
        Ok(heard)
    }

    /// Hears the frames that are due, in order.
    fn hear_all<E: Sink>(&mut self, report: &mut E, items: &[Candidate]) -> Result<(), OutOfMemory>
        requires { All (λ item. HasFrameLength item.octets) items.now }
        ensures heard { (hosts : Hosts) → Keeps self.old.hosts hosts
            → OnOk result (HearsFrames items.now self.old self.new hosts (E.told report.old) (E.told report.new)) }
        ensures cut { (hosts : Hosts) → Keeps self.old.hosts hosts
            → OnErr result (HearsSome items.now self.old self.new hosts (E.told report.old) (E.told report.new)) }
        ensures rest { (self.new.words ≡ self.old.words) × (self.new.ticks ≡ self.old.ticks)
            × (self.new.key ≡ self.old.key) × (self.new.meter ≡ self.old.meter) }
    {
        for item in items {
            self.hear(report, item.octets.as_slice())?;
        }
        Ok(())
    }

    /// Hears a frame.
    fn hear<E: Sink>(&mut self, report: &mut E, octets: &[u8]) -> Result<(), OutOfMemory>
        requires { HasFrameLength octets.now }
        ensures heard { (hosts : Hosts) → Keeps self.old.hosts hosts
            → OnOk result (HearsFrame octets.now self.old self.new hosts (E.told report.old) (E.told report.new)) }
        ensures unwritten { OnErr result ((report.new ≡ report.old) × (self.new.failed ≡ self.old.failed)) }
        ensures rest { (self.new.words ≡ self.old.words) × (self.new.ticks ≡ self.old.ticks)
            × (self.new.key ≡ self.old.key) × (self.new.meter ≡ self.old.meter) }
    {
        let shown = self.received_lines(octets)?;
        self.hosts.hear(octets)?;
        let lines = self.hosts.take_lines();
        let text = text_of_both(self.alloc, &shown, &lines)?;
        put(report, &mut self.failed, &text);
        Ok(())
    }

    /// Gives the key its turn, if there is one.
    fn turn_key<R: Net, O: Sink, E: Sink, K: KeyPort<O>>(
        &mut self,
        rt: &R,
        output: &O,
        report: &mut E,
        key: &mut K,
    )
        ensures turned { (from : From) (live : Live) → Keeps self.old.hosts live.hosts
            → KeyedSince from self.old live (O.told output.now) (E.told report.old) (K.told key.old)
            → TurnsTheKey from self.old self.new live (O.told output.now)
            (E.told report.old) (E.told report.new) (K.told key.new) }
        ensures rest { (self.new.words ≡ self.old.words) × (self.new.ticks ≡ self.old.ticks)
            × (self.new.hosts ≡ self.old.hosts) × (self.new.meter ≡ self.old.meter) }
    {
        match &mut self.key {
            None => {}
            Some(side) => {
                let told = side.turn(rt, key, output);
                put_reports(report, &mut self.failed, told);
            }
        }
    }

    /// Makes each tick that a position has passed.
    fn tick_up_to<O: Sink, E: Sink, K: KeyPort<O>>(
        &mut self,
        ring: &Ring,
        output: &mut O,
        report: &mut E,
        key: &mut K,
        busy: bool,
        least: u64,
    ) -> Result<(), OutOfMemory>
        requires meter { reader_ring self.old.meter.reader ≡ ring_id ring.now }
        ensures ticked { (from : From) (live : Live) → Keeps self.old.hosts live.hosts → self.old.ticks ≡ live.ticks
            → Measures (ring_len ring.now) self.old.words.rate self.old.meter live
            → KeyedSince from self.old live (O.told output.old) (E.told report.old) (K.told key.old)
            → OnOk result (TicksAll from busy (least / 96 - live.ticks) (ring_len ring.now) self.old self.new live
            (O.told output.old) (O.told output.new) (E.told report.old) (E.told report.new) (K.told key.new)) }
        ensures cut { (from : From) (live : Live) → Keeps self.old.hosts live.hosts → self.old.ticks ≡ live.ticks
            → Measures (ring_len ring.now) self.old.words.rate self.old.meter live
            → KeyedSince from self.old live (O.told output.old) (E.told report.old) (K.told key.old)
            → OnErr result ((count : ℕ) × (live.ticks + count ≤ least / 96) × Ticks from busy count (ring_len ring.now) self.old
            self.new live
            (O.told output.old) (O.told output.new) (E.told report.old) (E.told report.new) (K.told key.new)) }
        ensures rest { self.new.words ≡ self.old.words }
        ensures meter { reader_ring self.new.meter.reader ≡ ring_id ring.now }
    {
        for tick in self.ticks..least / TICK {
            self.tick(ring, output, report, key, busy, tick)?;
        }
        Ok(())
    }

    /// Makes the tick of a number, after its samples are read. The key is turned on, or off, before the samples are written. What is told of the
    /// station's health comes last.
    fn tick<O: Sink, E: Sink, K: KeyPort<O>>(
        &mut self,
        ring: &Ring,
        output: &mut O,
        report: &mut E,
        key: &mut K,
        busy: bool,
        tick: u64,
    ) -> Result<(), OutOfMemory>
        requires tick { 96 * (tick + 1) < 2 ^ 64 }
        requires meter { reader_ring self.old.meter.reader ≡ ring_id ring.now }
        ensures ticked { (from : From) (live : Live) → Keeps self.old.hosts live.hosts → tick ≡ live.ticks
            → Measures (ring_len ring.now) self.old.words.rate self.old.meter live
            → KeyedSince from self.old live (O.told output.old) (E.told report.old) (K.told key.old)
            → OnOk result (TicksAll from busy 1 (ring_len ring.now) self.old self.new live
            (O.told output.old) (O.told output.new) (E.told report.old) (E.told report.new) (K.told key.new)) }
        ensures unwritten { OnErr result ((output.new ≡ output.old) × (report.new ≡ report.old) × (key.new ≡ key.old)
            × (self.new.failed ≡ self.old.failed) × (self.new.key ≡ self.old.key)) }
        ensures measured { OnErr result ((more : List Got) × (answers_of (ring_len ring.now) self.new.meter.reader
            ≡ answers_of (ring_len ring.now) self.old.meter.reader ++ more)) }
        ensures count { OnOk result (self.new.ticks ≡ tick + 1) }
        ensures rest { self.new.words ≡ self.old.words }
        ensures meter { reader_ring self.new.meter.reader ≡ ring_id ring.now }
    {
        let alike = self.meter.health.alike;
        self.meter.read_to(ring, TICK * (tick + 1));
        let held = self.is_busy(busy);
        let air = self.hosts.tick(held)?;
        let lines = self.hosts.take_lines();
        let shown = self.sent_lines(&air)?;
        let text = text_of_both(self.alloc, &shown, &lines)?;
        let notes = tell_health(
            &mut self.meter.health,
            alike,
            &self.hosts,
            self.words.stats,
            busy,
            air.sent.is_some(),
            tick + 1,
        );
        let told = text_of_notes(self.alloc, notes)?;
        let keyed = self.key_tick(&air.samples, output, key);
        put_samples(&mut self.meter.out, output, &mut self.failed, &air.samples);
        put(report, &mut self.failed, &text);
        put_reports(report, &mut self.failed, keyed);
        let lost = self.key_written(output, key);
        put_reports(report, &mut self.failed, lost);
        put(report, &mut self.failed, &told);
        self.ticks = tick + 1;
        Ok(())
    }

    /// Whether no transmission may begin: the channel is busy, or the transmitter cannot be keyed.
    fn is_busy(&self, busy: bool) -> bool
        ensures { (keyed : List KeyEvent) → KeyStands self.now.words.key self.now.key keyed
            → result ≡ (busy || is_held self.now.words.key keyed) }
    {
        if busy {
            return true;
        }
        match &self.key {
            None => false,
            Some(side) => !side.is_free(),
        }
    }

    /// Tells the key whether the samples of a tick have sound, before they are written.
    fn key_tick<O: Sink, K: KeyPort<O>>(
        &mut self,
        samples: &[i16; 96],
        output: &O,
        key: &mut K,
    ) -> KeyReports
        ensures told { (words : KeyWords) (octets : ℕ) (keyed : List KeyEvent) → self.old.words.key ≡ Some words
            → KeyStands self.old.words.key self.old.key keyed
            → DoesForKey words octets (O.told output.now).written (KeyTick (has_sound samples.now)) keyed
            (reports_in result) self.new.key (K.told key.old) (K.told key.new) }
        ensures none { self.old.key ≡ None → (self.new.key ≡ None) × (key.new ≡ key.old) × (reports_in result ≡ []) }
        ensures rest { (self.new.words ≡ self.old.words) × (self.new.ticks ≡ self.old.ticks)
            × (self.new.hosts ≡ self.old.hosts) × (self.new.failed ≡ self.old.failed)
            × (self.new.meter ≡ self.old.meter) }
    {
        match &mut self.key {
            None => KeyReports::NOTHING,
            Some(side) => side.tick(has_sound(samples), key, output),
        }
    }

    /// Tells the key whether a write has failed by now, after the samples of a tick.
    fn key_written<O: Sink, K: KeyPort<O>>(&mut self, output: &O, key: &mut K) -> KeyReports
        ensures told { (words : KeyWords) (octets : ℕ) (keyed : List KeyEvent) → self.old.words.key ≡ Some words
            → KeyStands self.old.words.key self.old.key keyed
            → DoesForKey words octets (O.told output.now).written (KeyAfterWrite self.old.failed) keyed
            (reports_in result) self.new.key (K.told key.old) (K.told key.new) }
        ensures none { self.old.key ≡ None → (self.new.key ≡ None) × (key.new ≡ key.old) × (reports_in result ≡ []) }
        ensures rest { (self.new.words ≡ self.old.words) × (self.new.ticks ≡ self.old.ticks)
            × (self.new.hosts ≡ self.old.hosts) × (self.new.failed ≡ self.old.failed)
            × (self.new.meter ≡ self.old.meter) }
    {
        match &mut self.key {
            None => KeyReports::NOTHING,
            Some(side) => side.written(self.failed, key, output),
        }
    }

    /// Releases the key at the end of the run, if there is one.
    pub(crate) fn release<R: Net + Wait, O: Sink, K: KeyPort<O>>(
        &mut self,
        rt: &R,
        output: &O,
        key: &mut K,
    )
        ensures released { (from : From) (live : Live) (report : SinkTold)
            → KeyedSince from self.old live (O.told output.now) report (K.told key.old)
            → IsReleasedSince from self.old.words.key live (K.told key.new) }
        ensures meter { self.new.meter ≡ self.old.meter }
    {
        release_key(rt, &mut self.key, output, key);
    }

    /// Polls the ports, takes what came, and sends.
    fn serve_hosts<R: Net, E: Sink, N: Ports>(
        &mut self,
        rt: &R,
        report: &mut E,
        ports: &mut N,
    ) -> Result<(), OutOfMemory>
        ensures served { (hosts : Hosts) → Keeps self.old.hosts hosts
            → OnOk result (ServesAll self.old self.new hosts (E.told report.old) (E.told report.new)
            (N.told ports.old)
            (N.told ports.new)) }
        ensures cut { (hosts : Hosts) → Keeps self.old.hosts hosts → OnErr result (HasCutPart hosts
            (N.told ports.old)
            (N.told ports.new)) }
        ensures unwritten { OnErr result ((report.new ≡ report.old) × (self.new.failed ≡ self.old.failed)) }
        ensures rest { (self.new.words ≡ self.old.words) × (self.new.ticks ≡ self.old.ticks)
            × (self.new.key ≡ self.old.key) × (self.new.meter ≡ self.old.meter) }
        ensures listens { (N.told ports.new).listens ≡ (N.told ports.old).listens }
        ensures dials { (N.told ports.new).dials ≡ (N.told ports.old).dials }
        ensures later { (N.told ports.old).faults ≤ (N.told ports.new).faults }
    {
        self.hosts.part(rt, ports)?;
        let lines = self.hosts.take_lines();
        let text = text_of_lines(self.alloc, &lines)?;
        put(report, &mut self.failed, &text);
        Ok(())
    }

    /// The line of a frame that is heard, if a monitor asks for it.
    fn received_lines(&self, octets: &[u8]) -> Result<Vec<ReportLine>, OutOfMemory>
        ensures { (hosts : Hosts) (printed : List ReportLine) → StandsFor self.now.hosts printed hosts
            → IfOk result (λ lines. AreReceivedLines self.now.words.monitor
            octets.now hosts.station.links lines.items) }
    {
        let mut lines = Vec::new(self.alloc);
        if !self.words.monitor {
            return Ok(lines);
        }
        let text = frame_text(self.alloc, octets, self.heard_modulus(octets))?;
        lines.push(ReportLine::ReceivedLine { text })?;
        Ok(lines)
    }

    /// The line of the frame whose sending has ended with a tick, if there is one and a monitor asks for it.
    fn sent_lines(&self, air: &AirTick) -> Result<Vec<ReportLine>, OutOfMemory>
        ensures { (hosts : Hosts) (printed : List ReportLine) → StandsFor self.now.hosts printed hosts
            → IfOk result (λ lines. AreSentLines self.now.words.monitor air.now.sent hosts.station.links lines.items) }
    {
        let mut lines = Vec::new(self.alloc);
        let Some(sent) = &air.sent else {
            return Ok(lines);
        };
        if !self.words.monitor {
            return Ok(lines);
        }
        let octets = sent.octets.as_slice();
        let text = frame_text(self.alloc, octets, self.sent_modulus(octets))?;
        lines.push(ReportLine::SentLine { text })?;
        Ok(lines)
    }

    /// The modulus in which a frame that is heard is shown.
    fn heard_modulus(&self, octets: &[u8]) -> Modulus
        ensures { (hosts : Hosts) (printed : List ReportLine) → StandsFor self.now.hosts printed hosts
            → (path : Option Path) × IsPathOf octets.now path × (result ≡ heard_modulus path hosts.station.links) }
    {
        match read_path(octets) {
            Ok((path, _)) => self.hosts.modulus(&path.dest, &path.source),
            Err(_) => Modulus::Eight,
        }
    }

    /// The same for a frame that was sent.
    fn sent_modulus(&self, octets: &[u8]) -> Modulus
        ensures { (hosts : Hosts) (printed : List ReportLine) → StandsFor self.now.hosts printed hosts
            → (path : Option Path) × IsPathOf octets.now path × (result ≡ sent_modulus path hosts.station.links) }
    {
        match read_path(octets) {
            Ok((path, _)) => self.hosts.modulus(&path.source, &path.dest),
            Err(_) => Modulus::Eight,
        }
    }
}

/// Counts a tick, and answers what the report is told after so many, if so many samples were alike before it.
fn tell_health(
    health: &mut Health,
    alike: u64,
    hosts: &HostSide,
    seconds: Option<u32>,
    busy: bool,
    sent: bool,
    ticks: u64,
) -> HealthNotes
    ensures { (state : Hosts) (printed : List ReportLine) → StandsFor hosts.now printed state
        → (result ≡ notes_of seconds ticks alike (standing_of state) (after_tick busy sent health.old))
        × (health.new ≡ after_notes seconds ticks (standing_of state) (after_tick busy sent health.old)) }
{
    health.tick(busy, sent);
    health.tell(seconds, ticks, alike, hosts.standing())
}

/// A line for each gap.
fn gap_lines(alloc: Global, gaps: &[LaneGap]) -> Result<Vec<ReportLine>, OutOfMemory>
    ensures { IfOk result (λ lines. lines.items ≡ map gap_line gaps.now) }
{
    let mut lines = Vec::new(alloc);
    for gap in gaps {
        lines.push(ReportLine::GapLine {
            lane: gap.lane as usize,
            from: gap.from,
            to: gap.to,
        })?;
    }
    Ok(lines)
}
