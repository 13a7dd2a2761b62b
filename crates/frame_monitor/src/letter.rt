//! The kind of the message that shows a frame.
ghost use Rattle.std.specs.Prelude.{◌≡◌};
ghost use Rattle.frame_monitor.specs.MonitorText.{heard_letter, monitor_letter};

use ax25_frames::Kind;

/// The kind of the message that shows a frame: U for UI, I for I, S for any other that was heard, and T for each that
/// this station has sent.
pub fn monitor_letter(kind: &Kind, sent: bool) -> u8
    ensures { result ≡ monitor_letter sent kind.now }
{
    if sent { b'T' } else { heard_letter(kind) }
}

fn heard_letter(kind: &Kind) -> u8
    ensures { result ≡ heard_letter kind.now }
{
    match kind {
        Kind::Info { .. } => b'I',
        Kind::Ui { .. } => b'U',
        Kind::Super { .. } | Kind::Setup { .. } | Kind::Other { .. } => b'S',
    }
}
