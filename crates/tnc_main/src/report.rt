//! The lines that tell an operator why a run was refused.
ghost use Rattle.std.specs.Prelude.{◌≡◌, ◌≢◌, ◌⊎◌, ◌++◌, List, ℕ, Some, IfOk, string_bytes};
ghost use Rattle.tnc_base.specs.Faults.{HasRisen};
ghost use Rattle.tnc_base.specs.Streams.{WrotePart};
ghost use Rattle.tnc_forms.specs.declared.fault.InputFault.{InputFault};
ghost use Rattle.tnc_main.specs.Report.{gave_up_line, got_line, host_broke_line, input_line, name_of_flaw};
ghost use Rattle.tnc_main.specs.Report.{not_quiet_line, spent_line, stray_line};

use crate::status::Status;
use std::alloc::Global;
use tnc_base::{OutOfMemory, Sink};
use tnc_forms::{InputFault, LineFault, LineFlaw};
use wav_file::WavFault;

/// The words are no command.
pub(crate) const BAD_WORDS: &str = "tnc: bad words\n";

/// The input has more than 2^40 octets.
pub(crate) const TOO_LONG: &str = "tnc: bad input: too long at 1099511627776\n";

/// The ports of a live station could not be opened.
pub(crate) const NO_PORT: &str = "tnc: no port\n";

/// The input of a call has more than 2^20 octets.
pub(crate) const LONG_TEXT: &str = "tnc: bad input: too long at 1048576\n";

/// No connection to the live station of a call could be opened.
pub(crate) const NO_HOST: &str = "tnc: no host\n";

/// The live station or the called one refused a call.
pub(crate) const REFUSED: &str = "tnc: refused\n";

/// The connection to the live station of a call was lost.
pub(crate) const HOST_LOST: &str = "tnc: host lost\n";

/// The line for an input that breaks the rules of its form.
pub(crate) fn of_input(alloc: Global, fault: InputFault) -> Result<String, OutOfMemory>
    ensures { IfOk result (λ line. string_bytes line ≡ input_line fault) }
{
    match fault {
        InputFault::TooLong => Ok(String::from_str(alloc, TOO_LONG)?),
        InputFault::Line(LineFault { flaw, place }) => {
            let name = name_of(flaw);
            Ok(format!(in alloc; "tnc: bad input: {name} at {place}\n")?)
        }
        InputFault::Wav(fault) => of_wav(alloc, fault),
        InputFault::LongWav { count } => {
            Ok(format!(in alloc; "tnc: bad input: too long at {count}\n")?)
        }
    }
}

/// What a bad line is called.
fn name_of(flaw: LineFlaw) -> &'static str
    ensures { result.now ≡ name_of_flaw flaw }
{
    match flaw {
        LineFlaw::LongLine => "long line",
        LineFlaw::OddLine => "odd line",
        LineFlaw::BadDigit => "bad digit",
        LineFlaw::ShortLine => "short line",
    }
}

/// The line for a WAV file with a fault.
fn of_wav(alloc: Global, fault: WavFault) -> Result<String, OutOfMemory>
    ensures { IfOk result (λ line. string_bytes line ≡ input_line (InputFault.Wav fault)) }
{
    match fault {
        WavFault::NotRiff { at } => Ok(format!(in alloc; "tnc: bad input: not riff at {at}\n")?),
        WavFault::NotWave { at } => Ok(format!(in alloc; "tnc: bad input: not wave at {at}\n")?),
        WavFault::NoFormat { at } => Ok(format!(in alloc; "tnc: bad input: no format at {at}\n")?),
        WavFault::BadFormat { at, field, value } => {
            Ok(format!(in alloc; "tnc: bad input: bad format {field} value {value} at {at}\n")?)
        }
        WavFault::Truncated { at } => Ok(format!(in alloc; "tnc: bad input: truncated at {at}\n")?),
    }
}

/// The line for a stray frame with these octets.
pub(crate) fn of_stray(alloc: Global, octets: &[u8]) -> Result<String, OutOfMemory>
    ensures { IfOk result (λ line. string_bytes line ≡ stray_line octets.now) }
{
    let digits = hex::encode(alloc, octets)?;
    Ok(format!(in alloc; "tnc: stray {digits}\n")?)
}

/// The line for the frame of this number, which found no quiet channel.
pub(crate) fn of_no_quiet(alloc: Global, index: u64) -> Result<String, OutOfMemory>
    ensures { IfOk result (λ line. string_bytes line ≡ not_quiet_line index) }
{
    Ok(format!(in alloc; "tnc: not quiet at {index}\n")?)
}

/// The line for a run that is not over after so many ticks.
pub(crate) fn of_spent(alloc: Global, ticks: u64) -> Result<String, OutOfMemory>
    ensures { IfOk result (λ line. string_bytes line ≡ spent_line ticks) }
{
    Ok(format!(in alloc; "tnc: spent after {ticks} ticks\n")?)
}

/// The line for a call that has printed so many octets.
pub(crate) fn of_got(alloc: Global, count: usize) -> Result<String, OutOfMemory>
    ensures { IfOk result (λ line. string_bytes line ≡ got_line count) }
{
    Ok(format!(in alloc; "got {count}\n")?)
}

/// The line for a host whose message has a body of so many octets.
pub(crate) fn of_broken_host(alloc: Global, len: u32) -> Result<String, OutOfMemory>
    ensures { IfOk result (λ line. string_bytes line ≡ host_broke_line len) }
{
    Ok(format!(in alloc; "tnc: host broke at length {len}\n")?)
}

/// The line for a call that is not over after so many polls.
pub(crate) fn of_long_call(alloc: Global, polls: u32) -> Result<String, OutOfMemory>
    ensures { IfOk result (λ line. string_bytes line ≡ gave_up_line polls) }
{
    Ok(format!(in alloc; "tnc: gave up after {polls} polls\n")?)
}

/// Reports the line, and answers the status that it explains, or a write fault if the report can't be written.
pub(crate) fn told<E: Sink>(report: &mut E, line: &str, status: Status) -> Status
    requires { status ≢ Status.WriteFault }
    ensures status { (result ≡ status) ⊎ (result ≡ Status.WriteFault) }
    ensures line { (before : List ℕ) → (E.told report.old).written ≡ Some before
        → ((E.told report.new).written ≡ Some (before ++ line.now)) ⊎ (result ≡ Status.WriteFault) }
    ensures cut { (before : List ℕ) → (E.told report.old).written ≡ Some before
        → result ≡ Status.WriteFault → WrotePart before line.now (E.told report.new).written }
    ensures fault { result ≡ Status.WriteFault → HasRisen (E.told report.old).faults (E.told report.new).faults }
    ensures faultless { ((E.told report.new).faults ≡ (E.told report.old).faults) ⊎ (result ≡ Status.WriteFault) }
{
    match report.write(line.as_bytes()) {
        Ok(()) => status,
        Err(_) => Status::WriteFault,
    }
}
