//! What words can ask for.
use crate::topic::Topic;
use arrayvec::ArrayVec;
use ax25_address::Call;
use ax25_frames::Modulus;
use link_machine::Params;
use std::net::Ipv4Addr;

/// How samples come and go: raw PCM, or a WAV file.
#[derive(Clone, Copy, Debug, PartialEq, Eq)]
pub enum AudioForm {
    /// Samples of 16 bits, little-endian, and nothing else.
    Raw,
    /// A WAV file.
    Wav,
}

/// How frames come and go: lines of hexadecimal digits, or KISS.
#[derive(Clone, Copy, Debug, PartialEq, Eq)]
pub enum FrameForm {
    /// A line per frame.
    Hex,
    /// KISS frames.
    Kiss,
}

/// How many samples a second come in, and with `serve` go out.
#[derive(Clone, Copy, Debug, PartialEq, Eq)]
pub enum SampleRate {
    /// 9600.
    Narrow,
    /// 48,000, as sound cards have them.
    Wide,
}

/// How samples are heard.
#[derive(Clone, Copy, Debug, PartialEq, Eq)]
pub enum Receiving {
    /// Bell 202 at 1200 bits a second. The rate is that of raw samples; a WAV file tells its own.
    Standard { rate: SampleRate },
    /// So by more lanes, which hear weaker and less exact signals.
    Sensitive { rate: SampleRate },
    /// 300 bits a second and a shift of 200 Hz, on short wave, at 9600 samples a second.
    ShortWave,
    /// So by more lanes.
    SensitiveShortWave,
    /// Bell 202 at 9600 samples a second, frames that come plainly and in blocks of FX.25.
    Fx25,
    /// So by more lanes.
    SensitiveFx25,
}

/// A command with its options.
#[derive(Clone, Debug, PartialEq, Eq, Drop)]
pub enum Command {
    /// Samples in, frames out.
    Decode(DecodeWords),
    /// Frames in, samples out.
    Encode(EncodeWords),
    /// Frames in, a line of text for each out.
    Show(ShowWords),
    /// Frames that are drawn, sent and received again.
    Loop(LoopWords),
    /// Two stations that are joined by sound.
    Bench(BenchOptions),
    /// A station on the air, with ports for host programs.
    Serve(ServeOptions),
    /// Samples in, their sound and the frames in it out.
    Record(RecordOptions),
    /// One connected call through a station that others run.
    Call(CallOptions),
    /// What the program says about itself.
    Help(Topic),
    /// The program's name and version.
    Version,
}

/// The options of `decode`.
#[derive(Clone, Copy, Debug, PartialEq, Eq)]
pub struct DecodeWords {
    /// The form of the samples that come in.
    pub audio: AudioForm,
    /// The form of the frames that go out.
    pub frames: FrameForm,
    /// The lanes work on threads of their own.
    pub threads: bool,
    /// How the samples are heard.
    pub receiving: Receiving,
}

/// The options of `encode`.
#[derive(Clone, Copy, Debug, PartialEq, Eq)]
pub struct EncodeWords {
    /// The form of the frames that come in.
    pub frames: FrameForm,
    /// The form of the samples that go out.
    pub audio: AudioForm,
    /// All frames are one transmission, and not each frame its own.
    pub join: bool,
    /// The flags that open a transmission, 2 to 10,000.
    pub opening: u16,
    /// The flags that close it, 1 to 10,000.
    pub closing: u16,
    /// The silent samples before it, at most 1,000,000.
    pub silence: u32,
    /// The peak of each tone, 10 to 32,767, which is full scale.
    pub level: u16,
    /// The modem that sends.
    pub modem: Modem,
}

/// How bits are sent.
#[derive(Clone, Copy, Debug, PartialEq, Eq)]
pub enum Modem {
    /// Bell 202: 1200 bits a second, on VHF and UHF.
    Bell202,
    /// 300 bits a second and a shift of 200 Hz, on short wave.
    ShortWave,
    /// Bell 202, each frame with so many check octets around it (FX.25).
    Fx25(CheckOctets),
}

/// How many check octets follow the data of a block of FX.25.
#[derive(Clone, Copy, Debug, PartialEq, Eq)]
pub enum CheckOctets {
    /// 16.
    Sixteen,
    /// 32.
    ThirtyTwo,
    /// 64.
    SixtyFour,
}

/// The option of `show`.
#[derive(Clone, Copy, Debug, PartialEq, Eq)]
pub struct ShowWords {
    /// How the frames' control fields are read.
    pub modulus: Modulus,
}

/// The options of `loop`.
#[derive(Clone, Copy, Debug, PartialEq, Eq)]
pub struct LoopWords {
    /// What the frames are drawn from.
    pub seed: u64,
    /// How many frames there are, at most 1000.
    pub frames: u16,
    /// Each frame has a phase, a level and noise of its own, and not the exact signal.
    pub rough: bool,
    /// The lanes work on threads of their own.
    pub threads: bool,
}

/// The options of `bench`.
#[derive(Clone, Copy, Debug, PartialEq, Eq)]
pub struct BenchOptions {
    /// What all random numbers of the run are drawn from.
    pub seed: u64,
    /// How many octets each host gives in a set-up, at most 100,000.
    pub octets: u32,
    /// How many of a hundred transmissions are lost, at most 90.
    pub loss: u8,
    /// The most noise of a sample, at most 2000.
    pub noise: u16,
    /// Both stations are in full duplex.
    pub full: bool,
    /// Both stations call modulo 128.
    pub wide: bool,
    /// So many check octets stand around each frame, and both stations read blocks of FX.25; or all is plain.
    pub checks: Option<CheckOctets>,
}

/// By what `serve` takes the channel as busy.
#[derive(Clone, Copy, Debug, PartialEq, Eq)]
pub enum Dcd {
    /// The tones of another station.
    Tones,
    /// So many flags in a row, 1 to 8.
    Flags(u8),
}

/// The modem of the station of `serve`, and how it listens.
#[derive(Clone, Copy, Debug, PartialEq, Eq)]
pub enum StationModem {
    /// Bell 202 at 1200 bits a second. If it is sensitive, more lanes hear, which take weaker and less exact signals.
    Bell202 {
        sensitive: bool,
    },
    /// Short wave at 300 bits a second. If it is sensitive, more lanes hear there, too.
    ShortWave {
        sensitive: bool,
    },
    /// Bell 202 at 1200 bits a second, heard in blocks of FX.25, too, and sent with so many check octets around each frame,
    /// or plainly. If it is sensitive, more lanes hear here, too.
    Fx25 {
        checks: Option<CheckOctets>,
        sensitive: bool,
    },
}

/// The options of `serve`.
#[derive(Clone, Copy, Debug, PartialEq, Eq)]
pub struct ServeOptions {
    /// The TCP port for KISS hosts, 1 to 65,535, if one is opened.
    pub kiss: Option<u16>,
    /// The TCP port for AGWPE hosts, 1 to 65,535, if one is opened.
    pub agw: Option<u16>,
    /// The address that hosts connect to.
    pub bind: Ipv4Addr,
    /// What the random numbers of channel access are drawn from, if it was named.
    pub seed: Option<u64>,
    /// What new links are made with. Each window fits its modulus.
    pub params: Params,
    /// How the station takes the channel until a host sets it otherwise.
    pub channel: ChannelOptions,
    /// How many octets of a host's data go into a packet, 16 to 256.
    pub paclen: u16,
    /// The call for which frames are repeated, if any are.
    pub digi: Option<Call>,
    /// By what the channel is busy; on short wave by 2 to 8 flags in a row.
    pub dcd: Dcd,
    /// The modem, and how it listens.
    pub modem: StationModem,
    /// How many samples a second come in and go out.
    pub rate: SampleRate,
    /// Each frame that is heard or sent is reported in a line.
    pub monitor: bool,
    /// After how many seconds each the report has a line of counts, 1 to 86,400, if it has.
    pub stats: Option<u32>,
    /// How the transmitter is keyed, if it is.
    pub ptt: Option<PttOptions>,
}

/// How the station of `serve` takes the channel. Times are in units of 10 ms.
#[derive(Clone, Copy, Debug, PartialEq, Eq)]
pub struct ChannelOptions {
    /// TXDELAY: how long flags are sent before the first frame.
    pub tx_delay: u8,
    /// TXtail: how long flags are sent after the last frame.
    pub tx_tail: u8,
    /// P: a draw from 0 to 255 begins a transmission if it is at most this.
    pub persist: u8,
    /// The slot time: how long a transmission waits after a draw that began none.
    pub slot_time: u8,
    /// A transmission begins whether or not the channel is busy.
    pub full_duplex: bool,
}

/// How the transmitter of `serve` is keyed: by rigctld, the daemon of hamlib.
#[derive(Clone, Copy, Debug, PartialEq, Eq)]
pub struct PttOptions {
    /// The port of rigctld on 127.0.0.1, 1 to 65535.
    pub port: u16,
    /// For how many ticks of 10 ms the key stays on after the last one with sound, at most 500.
    pub tail: u16,
    /// The transmitter takes the sound of its data socket, and not of its microphone.
    pub data_socket: bool,
}

/// The options of `record`.
#[derive(Clone, Copy, Debug, PartialEq, Eq)]
pub struct RecordOptions {
    /// How many samples are kept, the last ones, 1 to 17,280,000.
    pub keep: u32,
    /// More lanes hear, which take weaker and less exact signals.
    pub sensitive: bool,
}

/// The options of `call`.
#[derive(Clone, Debug, PartialEq, Eq, Drop)]
pub struct CallOptions {
    /// The TCP port of the station's AGWPE side, 1 to 65,535.
    pub agw: u16,
    /// The call that is registered, and calls.
    pub own: Call,
    /// The call that is called.
    pub remote: Call,
    /// The repeaters between them, in the order in which they repeat what `own` sends.
    pub via: ArrayVec<Call, 8>,
    /// How many octets are awaited before it hangs up, at most 1,000,000.
    pub expect: u32,
    /// How often the station is polled at most, 1 to 1,000,000. A poll waits for up to a tenth of a second.
    pub polls: u32,
}
