//! What a frame is, between angle brackets.
ghost use Rattle.std.specs.Prelude.{◌≡◌, ◌++◌, codes, decimal, string_bytes, IfOk};
ghost use Rattle.ax25_frames.specs.FrameText.{supervisory_name, setup_name, other_name};
ghost use Rattle.frame_monitor.specs.MonitorText.{description, poll_final_name, poll_final_text};

use ax25_address::Role;
use ax25_frames::Kind;
use std::alloc::Global;
use tnc_base::OutOfMemory;

/// What a frame of this role is, as `<UI pid=F0 Len=6 PF=0 >`.
pub(crate) fn description(alloc: Global, role: Role, kind: &Kind) -> Result<String, OutOfMemory>
    ensures { IfOk result (λ text. string_bytes text ≡ description role kind.now) }
{
    let text = match kind {
        Kind::Info {
            ns,
            nr,
            poll,
            pid,
            octets,
        } => {
            let pid = hex::encode_upper(alloc, [*pid])?;
            let len = octets.len();
            let poll = poll_final(alloc, role, *poll)?;
            format!(in alloc; "<I S{ns} R{nr} pid=0x{pid} Len={len}{poll} >")?
        }
        Kind::Super { which, nr, flag } => {
            let name = which.name();
            let flag = poll_final(alloc, role, *flag)?;
            format!(in alloc; "<{name} R{nr}{flag} >")?
        }
        Kind::Setup { which, flag } => {
            let name = which.name();
            let flag = poll_final(alloc, role, *flag)?;
            format!(in alloc; "<{name}{flag} >")?
        }
        Kind::Ui { flag, pid, octets } => {
            let pid = hex::encode_upper(alloc, [*pid])?;
            let len = octets.len();
            let flag = poll_final(alloc, role, *flag)?;
            format!(in alloc; "<UI pid={pid} Len={len}{flag} >")?
        }
        Kind::Other {
            which,
            flag,
            octets,
        } => {
            let name = which.name();
            let flag = poll_final(alloc, role, *flag)?;
            let len = octets.len();
            format!(in alloc; "<{name}{flag} Len={len} >")?
        }
    };
    Ok(text)
}

/// The poll or final bit, as ` P=1`.
fn poll_final(alloc: Global, role: Role, flag: bool) -> Result<String, OutOfMemory>
    ensures { IfOk result (λ text. string_bytes text ≡ poll_final_text role flag) }
{
    let name = poll_final_word(role);
    let flag = u8::from(flag);
    Ok(format!(in alloc; " {name}={flag}")?)
}

/// Its letter.
fn poll_final_word(role: Role) -> &'static str
    ensures { result.now ≡ poll_final_name role }
{
    match role {
        Role::Command => "P",
        Role::Response => "F",
        Role::Old(_) => "PF",
    }
}
