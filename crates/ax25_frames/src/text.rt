//! A frame or a fault as one line of text.
ghost use Rattle.std.specs.Prelude.{◌≡◌, ℕ, ◌++◌, [], ◌∷◌, codes, decimal, flat_map, string_bytes, IfOk, OnOk};
ghost use Rattle.std.specs.Prelude.{if◌then◌else◌};
ghost use Rattle.ax25_address.specs.AddressField.{bit};
ghost use Rattle.ax25_frames.specs.FrameText.{text_of_frame, text_of_frame_fault, address_fault_text, path_text};
ghost use Rattle.ax25_frames.specs.FrameText.{hop_text, kind_text, is_command_of, has_command_bits, sets_up_or_ends};
ghost use Rattle.ax25_frames.specs.FrameText.{exchanges_or_tests, role_word, information_text, supervisory_name};
ghost use Rattle.ax25_frames.specs.FrameText.{setup_name, other_name};
ghost use Rattle.ax25_frames.specs.declared.frame.Kind.TheVariants.{Info, Super, Setup, Ui, Other};
ghost use Rattle.hex.specs.Hex.{encode_lower};

use crate::fault::FrameFault;
use crate::frame::{Frame, Kind, S, U, W};
use ax25_address::{AddrFault, Hop, Path, Role};
use std::alloc::{AllocError, Global};
use tnc_base::{Octets, OutOfMemory};

/// Whether the frame is read as a command (AX.25 2.2 section 4.3). I, UI, SABM, SABME, DISC, XID and TEST are commands
/// and UA, DM and FRMR responses, whatever the C bits; an S frame is a command if its path's role is.
pub fn is_command(frame: &Frame) -> bool
    ensures { result ≡ is_command_of frame.now.path.role frame.now.kind }
{
    match &frame.kind {
        Kind::Info { .. } | Kind::Ui { .. } => true,
        Kind::Super { .. } => matches!(frame.path.role, Role::Command),
        Kind::Setup { which, .. } => matches!(which, U::Sabm | U::Sabme | U::Disc),
        Kind::Other { which, .. } => matches!(which, W::Xid | W::Test),
    }
}

/// The line of a frame: its path, its kind, `cmd` or `rsp`, its fields and its information in lower-case
/// hexadecimal, as in `N7LEM>NJ7P,RELAY* I cmd ns=2 nr=3 p=1 pid=f0 len=2 6869`.
pub fn text_of(alloc: Global, frame: &Frame) -> Result<String, OutOfMemory>
    ensures { IfOk result (λ text. string_bytes text ≡ text_of_frame frame.now) }
{
    let path = path_line(alloc, &frame.path)?;
    let kind = kind_line(alloc, &frame.kind, is_command(frame))?;
    Ok(format!(in alloc; "{path} {kind}")?)
}

/// The line of a fault, as in `! short at 13`.
pub fn text_of_fault(alloc: Global, fault: FrameFault) -> Result<String, OutOfMemory>
    ensures { IfOk result (λ text. string_bytes text ≡ text_of_frame_fault fault) }
{
    match fault {
        FrameFault::Address(fault) => address_fault_line(alloc, fault),
        FrameFault::NoControl { at } => numbered_line(alloc, "! no control at ", at),
        FrameFault::NoPid { at } => numbered_line(alloc, "! no pid at ", at),
        FrameFault::UnknownControl { octet } => unknown_control_line(alloc, octet),
        FrameFault::InfoTooLong { len } => numbered_line(alloc, "! info too long ", len),
        FrameFault::StrayInfo { at } => numbered_line(alloc, "! stray info at ", at),
        FrameFault::Memory => line_of(alloc, "! out of memory"),
    }
}

/// The line of a fault in the addresses.
fn address_fault_line(alloc: Global, fault: AddrFault) -> Result<String, OutOfMemory>
    ensures { IfOk result (λ line. string_bytes line ≡ address_fault_text fault) }
{
    match fault {
        AddrFault::Short { at } => numbered_line(alloc, "! short at ", at),
        AddrFault::BadChar { at } => numbered_line(alloc, "! bad character at ", at),
        AddrFault::OneAddress => line_of(alloc, "! one address"),
        AddrFault::NoEnd => line_of(alloc, "! no end"),
    }
}

/// The line of an octet that begins no control field.
fn unknown_control_line(alloc: Global, octet: u8) -> Result<String, OutOfMemory>
    ensures { IfOk result (λ line. string_bytes line ≡ codes "! unknown control " ++ encode_lower (octet ∷ [])) }
{
    let octet = hex::encode(alloc, [octet])?;
    Ok(format!(in alloc; "! unknown control {octet}")?)
}

/// Words and a number.
fn numbered_line(alloc: Global, words: &str, number: usize) -> Result<String, OutOfMemory>
    ensures { IfOk result (λ line. string_bytes line ≡ words.now ++ decimal number) }
{
    Ok(format!(in alloc; "{words}{number}")?)
}

/// Words alone.
fn line_of(alloc: Global, words: &str) -> Result<String, OutOfMemory>
    ensures { IfOk result (λ line. string_bytes line ≡ words.now) }
{
    Ok(String::from_str(alloc, words)?)
}

/// A path: `SOURCE>DEST`, and each repeater after a comma.
fn path_line(alloc: Global, path: &Path) -> Result<String, OutOfMemory>
    ensures { IfOk result (λ line. string_bytes line ≡ path_text path.now) }
{
    let source = path.source.text();
    let dest = path.dest.text();
    let mut line = format!(in alloc; "{source}>{dest}")?;
    for hop in path.repeaters.as_slice() {
        push_hop(&mut line, hop)?;
    }
    Ok(line)
}

/// Appends a repeater, with an asterisk if it has repeated the frame.
fn push_hop(line: &mut String, hop: &Hop) -> Result<(), OutOfMemory>
    ensures { OnOk result (string_bytes line.new ≡ string_bytes line.old ++ hop_text hop.now) }
{
    line.push_str(",")?;
    line.push_str(hop.call.text().as_str())?;
    line.push_str(if hop.done { "*" } else { "" })?;
    Ok(())
}

/// What a frame says, as a command or as a response.
fn kind_line(alloc: Global, kind: &Kind, command: bool) -> Result<String, OutOfMemory>
    ensures { IfOk result (λ line. string_bytes line ≡ kind_text command kind.now) }
{
    match kind {
        Kind::Info {
            ns,
            nr,
            poll,
            pid,
            octets,
        } => i_line(alloc, command, *ns, *nr, *poll, *pid, octets),
        Kind::Super { which, nr, flag } => s_line(alloc, command, *which, *nr, *flag),
        Kind::Setup { which, flag } => setup_line(alloc, command, *which, *flag),
        Kind::Ui { flag, pid, octets } => ui_line(alloc, command, *flag, *pid, octets),
        Kind::Other {
            which,
            flag,
            octets,
        } => other_line(alloc, command, *which, *flag, octets),
    }
}

/// What an I frame says.
fn i_line(
    alloc: Global,
    command: bool,
    ns: u8,
    nr: u8,
    poll: bool,
    pid: u8,
    octets: &Octets,
) -> Result<String, OutOfMemory>
    ensures { IfOk result (λ line. string_bytes line ≡ kind_text command (Info ns nr poll pid octets.now)) }
{
    let role = word_of(command);
    let poll = u8::from(poll);
    let pid = hex::encode(alloc, [pid])?;
    let information = information_line(alloc, octets)?;
    Ok(format!(in alloc; "I {role} ns={ns} nr={nr} p={poll} pid={pid}{information}")?)
}

/// What an S frame says.
fn s_line(alloc: Global, command: bool, which: S, nr: u8, flag: bool) -> Result<String, OutOfMemory>
    ensures { IfOk result (λ line. string_bytes line ≡ kind_text command (Super which nr flag)) }
{
    let name = which.name();
    let role = word_of(command);
    let flag = u8::from(flag);
    Ok(format!(in alloc; "{name} {role} nr={nr} f={flag}")?)
}

/// What a frame that sets up or ends a link says.
fn setup_line(alloc: Global, command: bool, which: U, flag: bool) -> Result<String, OutOfMemory>
    ensures { IfOk result (λ line. string_bytes line ≡ kind_text command (Setup which flag)) }
{
    let name = which.name();
    let role = word_of(command);
    let flag = u8::from(flag);
    Ok(format!(in alloc; "{name} {role} f={flag}")?)
}

/// What a UI frame says.
fn ui_line(
    alloc: Global,
    command: bool,
    flag: bool,
    pid: u8,
    octets: &Octets,
) -> Result<String, OutOfMemory>
    ensures { IfOk result (λ line. string_bytes line ≡ kind_text command (Ui flag pid octets.now)) }
{
    let role = word_of(command);
    let flag = u8::from(flag);
    let pid = hex::encode(alloc, [pid])?;
    let information = information_line(alloc, octets)?;
    Ok(format!(in alloc; "UI {role} f={flag} pid={pid}{information}")?)
}

/// What FRMR, XID or TEST says.
fn other_line(
    alloc: Global,
    command: bool,
    which: W,
    flag: bool,
    octets: &Octets,
) -> Result<String, OutOfMemory>
    ensures { IfOk result (λ line. string_bytes line ≡ kind_text command (Other which flag octets.now)) }
{
    let name = which.name();
    let role = word_of(command);
    let flag = u8::from(flag);
    let information = information_line(alloc, octets)?;
    Ok(format!(in alloc; "{name} {role} f={flag}{information}")?)
}

/// The count of octets, and the octets if there are some.
fn information_line(alloc: Global, octets: &Octets) -> Result<String, OutOfMemory>
    ensures { IfOk result (λ line. string_bytes line ≡ information_text octets.now) }
{
    let len = octets.len();
    if len == 0 {
        return Ok(format!(in alloc; " len={len}")?);
    }
    let digits = hex::encode(alloc, octets.as_slice())?;
    Ok(format!(in alloc; " len={len} {digits}")?)
}

/// The word for a command or a response.
fn word_of(command: bool) -> &'static str
    ensures { result.now ≡ role_word command }
{
    if command { "cmd" } else { "rsp" }
}
