//! The health of a live station: what is counted of its sound, of its channel and of its frames, and what its report has
//! told.
ghost use Rattle.std.specs.Prelude.{◌≡◌};
ghost use Rattle.host_ports.specs.Health.{after_gap, after_notes, after_sample, alike_with, after_tick, counted_anew, counts_of, goes_dead, is_due};
ghost use Rattle.host_ports.specs.Health.{is_clipped, more_if, new_health, news, notes_of, with_heard};

use crate::health_note::{Counts, HealthNotes};

/// How many ticks a second has.
const SECOND: u64 = 100;

/// How many samples in a row that are all alike tell that the sound is dead: those of a thousand ticks.
const DEAD: u64 = 96_000;

/// What a station counts. Each count stays at the greatest number of 64 bits.
#[derive(Clone, Copy, Debug, PartialEq, Eq)]
pub struct Health {
    /// The greatest sample by its absolute value since the last line of counts.
    pub peak: u16,
    /// How many samples were the least or the greatest that there is since then.
    pub clipped: u64,
    /// The last sample, and how many in a row up to it are like it.
    pub last: i16,
    pub alike: u64,
    /// In how many ticks another station was heard since the last line of counts.
    pub busy: u64,
    /// How many frames were heard since then.
    pub heard: u64,
    /// How many frames were sent to their end since then.
    pub sent: u64,
    /// How many frames had been dropped in all by then.
    pub dropped: u64,
    /// How many dropped frames the report has told of.
    pub told: u64,
}

/// What the report tells of a station as it is.
#[derive(Clone, Copy)]
pub struct Standing {
    /// How many frames were dropped in all.
    pub dropped: u64,
    /// How many connections are there.
    pub hosts: u64,
    /// How many links there are.
    pub links: u32,
}

impl Health {
    /// Has counted nothing.
    pub fn new() -> Health
        ensures { result ≡ new_health }
    {
        Health {
            peak: 0,
            clipped: 0,
            last: 0,
            alike: 0,
            busy: 0,
            heard: 0,
            sent: 0,
            dropped: 0,
            told: 0,
        }
    }

    /// A sample is read.
    pub fn take_sample(&mut self, sample: i16)
        ensures { self.new ≡ after_sample sample self.old }
    {
        self.peak = self.peak.max(sample.unsigned_abs());
        self.clipped = more_if(is_clipped(sample), self.clipped);
        self.alike = alike(self.last, sample, self.alike);
        self.last = sample;
    }

    /// Samples are lost, which ends those that are alike.
    pub fn miss_samples(&mut self)
        ensures { self.new ≡ after_gap self.old }
    {
        self.alike = 0;
    }

    /// So many frames are heard.
    pub fn hear(&mut self, frames: usize)
        ensures { self.new ≡ with_heard frames self.old }
    {
        self.heard = self.heard.saturating_add(frames as u64);
    }

    /// A tick is made, in which another station is heard or not, and the sending of a frame ends or not.
    pub fn tick(&mut self, busy: bool, sent: bool)
        ensures { self.new ≡ after_tick busy sent self.old }
    {
        self.busy = more_if(busy, self.busy);
        self.sent = more_if(sent, self.sent);
    }

    /// What the report tells after so many ticks, if so many samples were alike before the last one. Without seconds it
    /// is told no counts.
    pub fn tell(
        &mut self,
        seconds: Option<u32>,
        ticks: u64,
        alike: u64,
        now: Standing,
    ) -> HealthNotes
        ensures notes { result ≡ notes_of seconds ticks alike now self.old }
        ensures after { self.new ≡ after_notes seconds ticks now self.old }
    {
        let dropped = news(self.told, now.dropped);
        let dead = goes_dead(alike, self.alike);
        self.told = now.dropped;
        if !is_due(seconds, ticks) {
            return HealthNotes {
                dropped,
                dead,
                stats: None,
            };
        }
        let stats = Some(self.counts(ticks, now));
        self.begin_anew(now.dropped);
        HealthNotes {
            dropped,
            dead,
            stats,
        }
    }

    /// The counts of a line.
    fn counts(&self, ticks: u64, now: Standing) -> Counts
        ensures { result ≡ counts_of ticks now self.now }
    {
        Counts {
            ticks,
            peak: self.peak,
            clipped: self.clipped,
            busy: self.busy,
            heard: self.heard,
            sent: self.sent,
            dropped: now.dropped.saturating_sub(self.dropped),
            hosts: now.hosts,
            links: now.links,
        }
    }

    /// Counts anew after a line of counts, by when so many frames had been dropped.
    fn begin_anew(&mut self, dropped: u64)
        ensures { self.new ≡ counted_anew dropped self.old }
    {
        *self = Health {
            last: self.last,
            alike: self.alike,
            dropped,
            told: self.told,
            ..Health::new()
        };
    }
}

/// Whether a sample is the least or the greatest that there is.
fn is_clipped(sample: i16) -> bool
    ensures { result ≡ is_clipped sample }
{
    sample == i16::MIN || sample == i16::MAX
}

/// How many samples in a row are alike with one more.
fn alike(last: i16, sample: i16, count: u64) -> u64
    ensures { result ≡ alike_with last sample count }
{
    if sample == last {
        count.saturating_add(1)
    } else {
        1
    }
}

/// Whether enough samples are alike for the first time.
fn goes_dead(before: u64, after: u64) -> bool
    ensures { result ≡ goes_dead before after }
{
    before < DEAD && DEAD <= after
}

/// A count, with one more or not.
fn more_if(more: bool, count: u64) -> u64
    ensures { result ≡ more_if more count }
{
    if more { count.saturating_add(1) } else { count }
}

/// How many frames were dropped, if the report has told another count.
fn news(told: u64, dropped: u64) -> Option<u64>
    ensures { result ≡ news told dropped }
{
    if dropped == told { None } else { Some(dropped) }
}

/// Whether a line of counts is due after so many ticks.
fn is_due(seconds: Option<u32>, ticks: u64) -> bool
    ensures { result ≡ is_due seconds ticks }
{
    match seconds {
        None | Some(0) => false,
        Some(seconds) => ticks % (SECOND * u64::from(seconds)) == 0,
    }
}
