//! A transmission under way, bit by bit.
ghost use Rattle.std.specs.Prelude.{◌≡◌, ◌+◌, ◌<◌, ◌≤◌, ◌++◌, ◌==◌, Some, None, pos, replicate, take};
ghost use Rattle.channel_access.specs.Modem.{tick_bits, samples_of_bits};
ghost use Rattle.channel_access.specs.HeldWave.{modem_of};
ghost use Rattle.channel_access.specs.Held.{step_of, with_step, following_bit, opening_step, after_closing};
ghost use Rattle.channel_access.specs.Held.{front_begins, opened, front_step, flag_step, followed, other_closing, flag_bit};
ghost use Rattle.channel_access.specs.HeldTaking.{ends_in_tick, on_air_in, sender_takes};
ghost use Rattle.channel_access.specs.Held.{stage_over, window_of, sent_with, new_sending};
ghost use Rattle.channel_access.specs.HeldTick.{run_of};

use crate::air_tick::{SAMPLES, Sent};
use crate::frame_bits::FrameBits;
use crate::modem::Modem;
use crate::parameters::{Parameters, closing_flags, opening_flags};
use crate::queue::Queue;
use crate::stage::Stage;
use crate::wave::Wave;
use nrzi_bits::NrziOut;
use tnc_base::Octets;

/// How many frames one transmission has at most.
const MOST_FRAMES: u8 = 8;

/// A transmission that has begun. The frame that it sends is the front one of the queue, and leaves it when the flag
/// after it is sent.
#[derive(Drop)]
pub(crate) struct Sending {
    stage: Stage,
    /// How many frames it has so far.
    frames: u8,
    /// TXtail, as it was when the transmission began.
    tail: u8,
    line: NrziOut,
    wave: Wave,
}

/// What one bit of a transmission is.
#[derive(Drop)]
struct Bit {
    /// The bit, or none if nothing is left.
    value: Option<bool>,
    /// The frame whose following flag ends with it.
    named: Option<Octets>,
}

impl Bit {
    fn of(bit: bool) -> Bit
        ensures { result ≡ record { value = Some bit; named = None } }
    {
        Bit {
            value: Some(bit),
            named: None,
        }
    }

    fn silent() -> Bit
        ensures { result ≡ record { value = None; named = None } }
    {
        Bit {
            value: None,
            named: None,
        }
    }
}

impl Sending {
    /// Before the first flag of a transmission.
    pub(crate) fn new(modem: Modem, parameters: &Parameters) -> Sending
        ensures { result ≡ new_sending modem parameters.now }
    {
        Sending {
            stage: Stage::Opening {
                left: 8 * opening_flags(modem, parameters.tx_delay),
            },
            frames: 0,
            tail: parameters.tx_tail,
            line: NrziOut::new(),
            wave: Wave::new(modem),
        }
    }

    /// Whether nothing is left.
    pub(crate) fn is_over(&self) -> bool
        ensures { result ≡ stage_over self.now.stage }
    {
        matches!(self.stage, Stage::Over)
    }

    /// Whether the next tick takes a frame of a link: the opening flags or a frame end with it, there are fewer than
    /// eight frames, and none of a link waits to follow.
    pub(crate) fn takes_frame(&self, queue: &Queue) -> bool
        ensures { result ≡ sender_takes self.now queue.now }
    {
        self.ends_in_tick(queue)
            && self.frames < MOST_FRAMES
            && !queue.holds_of_links(self.on_air())
    }

    /// Whether the next frame is the last.
    pub(crate) fn takes_last(&self) -> bool
        ensures { result ≡ (self.now.frames + 1 == 8) }
    {
        self.frames == MOST_FRAMES - 1
    }

    /// Whether the opening flags or the front frame end with the bits of a tick.
    fn ends_in_tick(&self, queue: &Queue) -> bool
        ensures { result ≡ ends_in_tick (modem_of self.now.wave) self.now.stage queue.now }
    {
        let tick_bits = self.wave.modem().tick_bits();
        match self.stage {
            Stage::Opening { left } => left <= u16::from(tick_bits),
            Stage::Frame { bits } => match queue.front() {
                Some(octets) => bits.end_within(tick_bits, octets),
                None => false,
            },
            Stage::Following { .. } | Stage::Closing { .. } | Stage::Over => false,
        }
    }

    /// How many of the frames that wait are on the air.
    fn on_air(&self) -> usize
        ensures { result ≡ on_air_in self.now.stage }
    {
        match self.stage {
            Stage::Frame { .. } | Stage::Following { .. } => 1,
            Stage::Opening { .. } | Stage::Closing { .. } | Stage::Over => 0,
        }
    }

    /// The samples of a tick, and the frame that is sent with it.
    pub(crate) fn tick(&mut self, queue: &mut Queue) -> ([i16; SAMPLES], Option<Sent>)
        ensures samples { result.0 ≡ (run_of self.old queue.old).samples }
        ensures sent { result.1 ≡ (run_of self.old queue.old).sent }
        ensures sending { self.new ≡ (run_of self.old queue.old).sending }
        ensures waiting { queue.new ≡ (run_of self.old queue.old).waiting }
    {
        let modem = self.wave.modem();
        let mut samples = [0; SAMPLES];
        let mut sent = None;
        for count in 0..modem.tick_bits() {
            let bit = self.step(queue);
            self.put(bit.value, &mut samples, count);
            sent = sent_with(modem, bit.named, count + 1, sent);
        }
        (samples, sent)
    }

    /// The next bit.
    #[tactic(auto, unfolding(crate::specs::Held::step_of))]
    fn step(&mut self, queue: &mut Queue) -> Bit
        ensures bit { result.value ≡ (step_of self.old queue.old).bit }
        ensures named { result.named ≡ (step_of self.old queue.old).named }
        ensures sending { self.new ≡ with_step self.old (step_of self.old queue.old) }
        ensures waiting { queue.new ≡ (step_of self.old queue.old).waiting }
    {
        match self.stage {
            Stage::Opening { left } => self.step_in_opening(left, queue),
            Stage::Frame { bits } => self.step_in_frame(bits, queue),
            Stage::Following { left, another } => self.step_in_flag(left, another, queue),
            Stage::Closing { left } => {
                self.stage = after_closing(left);
                Bit::of(flag_bit(left))
            }
            Stage::Over => Bit::silent(),
        }
    }

    /// A bit of the opening flags. With their last one it is decided what follows: the front frame, or the closing
    /// flags if none waits.
    fn step_in_opening(&mut self, left: u16, queue: &Queue) -> Bit
        ensures bit { result.value ≡ Some (flag_bit left) }
        ensures named { result.named ≡ None }
        ensures sending { self.new
            ≡ with_step self.old (opening_step left (modem_of self.old.wave) self.old.tail self.old.frames queue.now) }
    {
        if left > 1 {
            self.stage = Stage::Opening { left: left - 1 };
        } else {
            self.open(queue);
        }
        Bit::of(flag_bit(left))
    }

    /// A bit of the front frame.
    fn step_in_frame(&mut self, bits: FrameBits, queue: &Queue) -> Bit
        ensures bit { result.value ≡ (front_step bits self.old.frames queue.now).bit }
        ensures named { result.named ≡ None }
        ensures sending { self.new ≡ with_step self.old (front_step bits self.old.frames queue.now) }
    {
        let Some(octets) = queue.front() else {
            return self.end();
        };
        let Some((bit, following)) = bits.next(octets) else {
            return self.end();
        };
        if following.is_over(octets) {
            self.follow(queue.len());
        } else {
            self.stage = Stage::Frame { bits: following };
        }
        Bit::of(bit)
    }

    fn end(&mut self) -> Bit
        ensures bit { result ≡ record { value = None; named = None } }
        ensures sending { self.new ≡ record self.old { stage = Stage.Over } }
    {
        self.stage = Stage::Over;
        Bit::silent()
    }

    /// The last bit of the opening flags is sent: the front frame follows, or the closing flags if none waits.
    fn open(&mut self, queue: &Queue)
        ensures { self.new ≡ opened queue.now self.old }
    {
        match queue.front() {
            Some(octets) => {
                self.frames = 1;
                self.stage = Stage::Frame {
                    bits: FrameBits::new(self.wave.modem(), octets),
                };
            }
            None => {
                self.stage = Stage::Closing {
                    left: 8 * closing_flags(self.wave.modem(), self.tail),
                };
            }
        }
    }

    /// The last bit of the front frame is sent, and it is decided what follows: another frame if one waits after it
    /// and there are fewer than eight, and else the closing flags.
    fn follow(&mut self, waiting: usize)
        ensures { self.new ≡ followed waiting self.old }
    {
        let another = self.frames < MOST_FRAMES && waiting > 1;
        if another {
            self.frames += 1;
        }
        self.stage = Stage::Following { left: 8, another };
    }

    /// A bit of the flag after the front frame. With its last one that frame is sent.
    fn step_in_flag(&mut self, left: u8, another: bool, queue: &mut Queue) -> Bit
        ensures bit { result.value ≡ Some (flag_bit left) }
        ensures named { result.named
            ≡ (flag_step left another (modem_of self.old.wave) self.old.tail self.old.frames queue.old).named }
        ensures sending { self.new
            ≡ with_step self.old (flag_step left another (modem_of self.old.wave) self.old.tail self.old.frames queue.old) }
        ensures waiting { queue.new
            ≡ (flag_step left another (modem_of self.old.wave) self.old.tail self.old.frames queue.old).waiting }
    {
        let value = Some(flag_bit(u16::from(left)));
        if left > 1 {
            self.stage = Stage::Following {
                left: left - 1,
                another,
            };
            return Bit { value, named: None };
        }
        let named = queue.pop();
        self.stage = if another {
            front_begins(self.wave.modem(), queue)
        } else {
            other_closing(self.wave.modem(), self.tail)
        };
        Bit { value, named }
    }

    /// Puts the samples of a bit, or as much silence, after those of so many bits of a tick.
    fn put(&mut self, bit: Option<bool>, samples: &mut [i16; SAMPLES], count: u8)
        requires { count < tick_bits (modem_of self.old.wave) }
        ensures samples { take (samples_of_bits (modem_of self.old.wave) (count + 1)) samples.new
            ≡ take (samples_of_bits (modem_of self.old.wave) count) samples.old ++ window_of self.old bit }
        ensures sending { self.new ≡ following_bit self.old bit }
    {
        let modem = self.wave.modem();
        let start = usize::from(modem.samples(count));
        match bit {
            Some(bit) => self.wave.put(self.line.step(bit), samples, start),
            None => put_silence(samples, start, usize::from(modem.samples(1))),
        }
    }
}

/// The bit of some flags, which end when so many bits, this one among them, are sent: the first and the last of each
/// eight are 0.
fn flag_bit(left: u16) -> bool
    ensures { result ≡ flag_bit left }
{
    left % 8 > 1
}

fn after_closing(left: u16) -> Stage
    ensures { result ≡ after_closing left }
{
    if left > 1 {
        Stage::Closing { left: left - 1 }
    } else {
        Stage::Over
    }
}

fn front_begins(modem: Modem, queue: &Queue) -> Stage
    ensures { result ≡ front_begins modem queue.now }
{
    match queue.front() {
        Some(octets) => Stage::Frame {
            bits: FrameBits::new(modem, octets),
        },
        None => Stage::Over,
    }
}

/// The closing flags after the first of them.
fn other_closing(modem: Modem, tail: u8) -> Stage
    ensures { result ≡ other_closing modem tail }
{
    let flags = closing_flags(modem, tail);
    if flags > 1 {
        Stage::Closing {
            left: 8 * (flags - 1),
        }
    } else {
        Stage::Over
    }
}

/// Puts silence after so many samples of a tick.
fn put_silence(samples: &mut [i16; SAMPLES], start: usize, count: usize)
    requires { start + count ≤ 96 }
    ensures { take (start + count) samples.new ≡ take start samples.old ++ replicate count (pos 0) }
{
    samples[start..start + count].fill(0);
}

/// The frame that was sent so far, if so many bits of the tick are sent and the last of them names a frame or none.
fn sent_with(modem: Modem, named: Option<Octets>, bits: u8, sent: Option<Sent>) -> Option<Sent>
    requires { bits ≤ tick_bits modem }
    ensures { result ≡ sent_with modem named bits sent }
{
    match named {
        Some(octets) => Some(Sent {
            octets,
            after: modem.samples(bits),
        }),
        None => sent,
    }
}
