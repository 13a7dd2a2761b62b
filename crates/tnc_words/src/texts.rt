//! The texts of `help` and `version`.
ghost use Rattle.std.specs.Prelude.{◌≡◌};
ghost use Rattle.tnc_words.specs.Help.{text_about, version_text};

use crate::topic::Topic;

/// The program and its version.
const VERSION: &str = "tnc 0.9.0\n";

/// All commands.
const PROGRAM: &str = "\
Usage: tnc COMMAND [OPTION]...

A software terminal node controller for packet radio: AX.25 over the tones of Bell 202.

  tnc decode [--wav] [--kiss] [--threads] [--hf] [--sensitive] [--fx25] [--rate n]
  tnc encode [--kiss] [--wav] [--join] [--hf] [--fx25 n] [--opening n] [--closing n] [--silence n]
             [--level n]
  tnc show [--modulo n]
  tnc loop --seed n --frames n [--rough] [--threads]
  tnc bench --seed n [--octets n] [--loss n] [--noise n] [--fx25 n] [--full] [--wide]
  tnc serve [--kiss port] [--agw port] [--bind A.B.C.D] [--seed n] [--mode name]
            [--window n] [--wide] [--wide-window n] [--t1 n] [--retries n] [--txdelay n]
            [--txtail n] [--persist n] [--slot n] [--duplex] [--paclen n] [--digi call]
            [--dcd how] [--hf] [--sensitive] [--fx25 n] [--rate n] [--monitor] [--stats n]
            [--ptt n] [--ptt-tail n] [--ptt-data]
  tnc record [--keep n] [--sensitive]
  tnc call --agw n --from call --to call [--via calls] [--expect n] [--polls n]
  tnc help [COMMAND]
  tnc version

  decode   prints the frames that are heard in sound
  encode   makes the sound of frames
  show     prints frames as text
  loop     tries the modem on itself
  bench    runs two stations that are joined by sound
  serve    runs a live station with ports for host programs
  record   keeps the last of the sound as a WAV file, and prints the frames that are heard in it
  call     calls a station through a live station, and carries a text there and back

A command reads standard input and writes standard output. Sound is raw PCM of 9600 samples a second, 16 bits,
little-endian, one channel. `tnc help COMMAND` says what the options are, and the manual page tnc(1) says all.
";

const DECODE: &str = "\
Usage: tnc decode [--wav] [--kiss] [--threads] [--hf] [--sensitive] [--fx25] [--rate n]

Prints the frames that are heard in sound, a line of hexadecimal digits each, as soon as they have ended.

  --wav        the input is a WAV file, and not raw PCM
  --kiss       the output is KISS frames, and not lines
  --threads    threads share the work, and a recording is read in long blocks
  --hf         the sound is of short wave, 300 bits a second, and not Bell 202; without --threads
  --sensitive  hears in more noise and where the sender's clock is off, and takes longer
  --fx25       hears frames in blocks of FX.25 too, and repairs them; at 9600 samples a second,
               without --hf
  --rate n     samples a second of raw PCM, 9600 or 48000 (9600); a WAV file tells its own
";

const ENCODE: &str = "\
Usage: tnc encode [--kiss] [--wav] [--join] [--hf] [--fx25 n] [--opening n] [--closing n] [--silence n] [--level n]

Makes the sound of frames, which come as lines of hexadecimal digits.

  --kiss       the input is KISS frames, and not lines
  --wav        the output is a WAV file, and not raw PCM
  --join       all frames are one transmission
  --hf         300 bits a second, for short wave, and not Bell 202
  --fx25 n     each frame with 16, 32 or 64 check octets around it (FX.25), and not plainly
  --opening n  flags before the first frame, 2 to 10000 (75)
  --closing n  flags after the last frame, 1 to 10000 (2)
  --silence n  samples of silence before a transmission, 0 to 1000000 (0)
  --level n    the amplitude of the tones, 10 to 32767 (10000)
";

const SHOW: &str = "\
Usage: tnc show [--modulo n]

Prints a line of text for each frame, which come as lines of hexadecimal digits.

  --modulo n   how many sequence numbers the stations count with, 8 or 128 (8)
";

const LOOP: &str = "\
Usage: tnc loop --seed n --frames n [--rough] [--threads]

Sends random frames to itself, and prints how many were heard.

  --seed n     what the frames are drawn from, 0 to 18446744073709551615
  --frames n   how many there are, 0 to 1000
  --rough      each transmission has a phase, a level and noise of its own
  --threads    the receiver works on threads
";

const BENCH: &str = "\
Usage: tnc bench --seed n [--octets n] [--loss n] [--noise n] [--fx25 n] [--full] [--wide]

Runs two stations that are joined by sound, whose hosts give each other a text, and prints what each host got.

  --seed n     what the run is drawn from, 0 to 18446744073709551615
  --octets n   octets that each host gives, 0 to 100000 (2000)
  --loss n     transmissions of a hundred that are lost, 0 to 90 (0)
  --noise n    the most noise of a sample, 0 to 2000 (0)
  --fx25 n     each frame with 16, 32 or 64 check octets around it (FX.25), and blocks are read; or 0 (0)
  --full       both stations send in full duplex
  --wide       links are called modulo 128
";

const SERVE: &str = "\
Usage: tnc serve [--kiss port] [--agw port] [--bind A.B.C.D] [--seed n] [--mode name]
                 [--window n] [--wide] [--wide-window n] [--t1 n] [--retries n] [--txdelay n]
                 [--txtail n] [--persist n] [--slot n] [--duplex] [--paclen n] [--digi call]
                 [--dcd how] [--hf] [--sensitive] [--fx25 n] [--rate n] [--monitor] [--stats n]
                 [--ptt n] [--ptt-tail n] [--ptt-data]

Runs a station until its sound ends: it hears standard input, sends standard output, and serves host programs.

  --kiss port      the port for KISS hosts, 1 to 65535, or none (8001)
  --agw port       the port for AGWPE hosts, 1 to 65535, or none (8000)
  --bind A.B.C.D   the address that hosts connect to (127.0.0.1); whoever reaches it sends under your licence
  --seed n         what channel access draws from, 0 to 18446744073709551615 (the clock at the start)
  --mode name      how links ask for lost frames, rej or srej (rej modulo 8, srej modulo 128)
  --window n       frames that a link sends ahead, modulo 8, 1 to 7, with srej to 4 (4)
  --wide           links are called modulo 128
  --wide-window n  frames that a link sends ahead, modulo 128, 1 to 64, with rej to 127 (32)
  --t1 n           ticks of 10 ms that a link waits for an answer, without repeaters, 100 to 3000 (200)
  --retries n      how often a link asks again before it fails, 1 to 20 (10)
  --txdelay n      flags before the first frame, in units of 10 ms, 0 to 255 (30)
  --txtail n       flags after the last frame, in units of 10 ms, 0 to 255 (2)
  --persist n      a draw from 0 to 255 sends if it is at most n, 0 to 255 (63)
  --slot n         how long a draw waits for the next one, in units of 10 ms, 0 to 255 (10)
  --duplex         sends whether or not the channel is busy
  --paclen n       octets of a packet that is made of a host's data, 16 to 256 (256)
  --digi call      repeats frames for this call
  --dcd how        by what the channel is busy: tones, or so many flags in a row, 1 to 8 (tones); with --hf or --fx25
                   by flags alone, 2 to 8 (3)
  --hf             short wave: 300 bits a second at 1600 and 1800 Hz; --t1 is 600 if not given
  --sensitive      hears in more noise and where the sender's clock is off, and takes longer
  --fx25 n         hears frames in blocks of FX.25 too, and repairs them; sends each with 16, 32 or 64 check octets
                   around it, or with 0 plainly; the channel is busy while a block comes in; without --hf, at
                   9600 samples a second
  --rate n         samples a second, in and out, 9600 or 48000 (9600)
  --monitor        tells each frame that is heard or sent on standard error
  --stats n        tells each n seconds what the station counted, on standard error, 1 to 86400
  --ptt n          keys the transmitter by rigctld, the daemon of hamlib, at this port of 127.0.0.1, 1 to 65535
  --ptt-tail n     ticks of 10 ms that the key stays on after the last sound, 0 to 500 (70); with --ptt
  --ptt-data       keys for the sound of the radio's data socket, and not of its microphone; with --ptt
";

const RECORD: &str = "\
Usage: tnc record [--keep n] [--sensitive]

Keeps the last of the sound on standard input, and writes it as a WAV file after the sound has ended. It tells each
frame that is heard meanwhile on standard error, and at the end which samples were lost.

  --keep n     samples that are kept, 9600 a second, 1 to 17280000 (576000)
  --sensitive  hears in more noise and where the sender's clock is off, and takes longer
";

const CALL: &str = "\
Usage: tnc call --agw n --from call --to call [--via calls] [--expect n] [--polls n]

Calls a station through a live station at 127.0.0.1, sends standard input, prints what comes, and hangs up.

  --agw n      the port of the live station for AGWPE hosts, 1 to 65535
  --from call  the call that calls
  --to call    the call that is called
  --via calls  one to eight repeaters, joined by commas
  --expect n   octets that are awaited before it hangs up, 0 to 1000000 (0)
  --polls n    polls, of a tenth of a second at most, after which it gives up, 1 to 1000000 (100000)
";

/// What is told about a topic: some lines of ASCII.
#[tactic(auto, unfolding(crate::specs::Help::text_about))]
pub fn help_text(topic: Topic) -> &'static str
    ensures { result.now ≡ text_about topic }
{
    match topic {
        Topic::Program => PROGRAM,
        Topic::Decode => DECODE,
        Topic::Encode => ENCODE,
        Topic::Show => SHOW,
        Topic::Loop => LOOP,
        Topic::Bench => BENCH,
        Topic::Serve => SERVE,
        Topic::Record => RECORD,
        Topic::Call => CALL,
    }
}

/// The line that names the program and its version.
#[tactic(auto, unfolding(crate::specs::Help::version_text))]
pub fn version_line() -> &'static str
    ensures { result.now ≡ version_text }
{
    VERSION
}
