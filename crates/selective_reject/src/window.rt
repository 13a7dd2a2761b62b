//! How many frames may be under way at once.

ghost use Rattle.std.specs.Prelude.{◌≡◌, ◌↔◌, IsOk, IfErr};
ghost use Rattle.selective_reject.specs.Numbers.{IsModulus};
ghost use Rattle.selective_reject.specs.Window.{IsWindow, IsBadWindow, largest_window};

use thiserror::Error;

/// What a receiver does with a frame that comes ahead of a gap.
#[derive(Clone, Copy, Debug, PartialEq, Eq)]
pub enum Mode {
    /// It drops the frame, and asks for all from the gap on (REJ).
    Rej,
    /// It keeps the frame, and asks for those of the gap alone (SREJ).
    Srej,
}

/// No link can have this window.
#[derive(Clone, Copy, Debug, Drop, PartialEq, Eq, Error)]
#[error("bad window {window}")]
pub struct BadWindow {
    /// The window that was refused.
    pub window: u8,
}

/// Refuses a window of 0, and one that is over `modulus - 1` with [`Mode::Rej`] or over half the modulus with
/// [`Mode::Srej`] (AX.25 2.2 sections 4.2 and 6.4).
pub fn check_window(modulus: u8, window: u8, mode: Mode) -> Result<(), BadWindow>
    requires { IsModulus modulus }
    ensures ok { IsOk result ↔ IsWindow modulus window mode }
    ensures bad { IfErr result (λ bad. (bad.window ≡ window) × IsBadWindow modulus window mode) }
{
    if window == 0 || largest_window(modulus, mode) < window {
        return Err(BadWindow { window });
    }
    Ok(())
}

fn largest_window(modulus: u8, mode: Mode) -> u8
    requires { IsModulus modulus }
    ensures { result ≡ largest_window modulus mode }
{
    match mode {
        Mode::Rej => modulus - 1,
        Mode::Srej => modulus / 2,
    }
}
