//! What a link is made with.
ghost use Rattle.std.specs.Prelude.{◌≡◌, ℕ, ◌↔◌, OnOk, IfOk};
ghost use Rattle.std.specs.Result.{IsErrOf};
ghost use Rattle.ax25_frames.specs.ControlField.{numbers};
ghost use Rattle.selective_reject.specs.Window.{IsWindow};
ghost use Rattle.link_machine.specs.Params.{default_params, window_in, mode_in, called_modulus, HasWindows};
ghost use Rattle.link_machine.specs.Params.{IsRefusedWindow};

use ax25_frames::Modulus;
use selective_reject::{BadWindow, Mode, check_window};
use std::marker::Model;

/// How a link asks for lost frames and how many I frames it has under way, in each modulus, whether it calls modulo 8 or
/// 128, how long it waits for an answer and how often it asks again. It answers both kinds of call.
#[derive(Clone, Copy, Debug, PartialEq, Eq)]
pub struct Params {
    /// REJ or SREJ, modulo 8.
    pub mode: Mode,
    /// The most I frames that are sent and not acknowledged, k, modulo 8: 1 to 7, with SREJ 1 to 4.
    pub window: u8,
    /// The link calls with SABME, and so modulo 128.
    pub wide: bool,
    /// REJ or SREJ, modulo 128.
    pub wide_mode: Mode,
    /// The same as `window`, modulo 128: 1 to 127, with SREJ 1 to 64.
    pub wide_window: u8,
    /// The acknowledgement timer T1 on a path without repeaters, in ticks of 10 ms.
    pub t1: u16,
    /// The most retries, N2.
    pub retries: u8,
}

impl Default for Params {
    /// REJ and a window of 4, calls modulo 8, and modulo 128 SREJ and a window of 32; a T1 of two seconds, and ten
    /// retries.
    fn default() -> Params
        ensures { result ≡ default_params }
    {
        Params {
            mode: Mode::Rej,
            window: 4,
            wide: false,
            wide_mode: Mode::Srej,
            wide_window: 32,
            t1: 200,
            retries: 10,
        }
    }
}

/// Parameters whose windows fit.
#[derive(Drop)]
pub struct FittingParams {
    params: Params,
}

impl Model for FittingParams {
    ghost use Rattle.link_machine.specs.declared.params.Params.{Params};
    ghost use Rattle.link_machine.specs.Params.{HasWindows};

    ghost Value = { Params };

    ghost view = { λ s. s.params };

    ghost invariant = { λ s. HasWindows s.params };
}

impl FittingParams {
    /// Refuses the first window that does not fit its modulus.
    pub(crate) fn check(params: Params) -> Result<FittingParams, BadWindow>
        ensures params { IfOk result (λ fitting. fitting ≡ params) }
        ensures windows { OnOk result (HasWindows params) }
        ensures bad_window { (window : ℕ) → IsErrOf result (record { window = window })
            ↔ IsRefusedWindow params window }
    {
        check_window(8, params.window, params.mode)?;
        check_window(128, params.wide_window, params.wide_mode)?;
        Ok(FittingParams { params })
    }

    /// The same parameters.
    pub(crate) fn copy(&self) -> FittingParams
        ensures { result ≡ self.now }
    {
        FittingParams {
            params: self.params,
        }
    }

    /// T1 on a path without repeaters, in ticks of 10 ms.
    pub(crate) fn t1(&self) -> u16
        ensures { result ≡ self.now.t1 }
    {
        self.params.t1
    }

    /// The most retries, N2.
    pub(crate) fn retries(&self) -> u8
        ensures { result ≡ self.now.retries }
    {
        self.params.retries
    }

    /// REJ or SREJ, in a modulus.
    pub(crate) fn mode_in(&self, modulus: Modulus) -> Mode
        ensures { result ≡ mode_in (numbers modulus) self.now }
    {
        match modulus {
            Modulus::Eight => self.params.mode,
            Modulus::OneTwentyEight => self.params.wide_mode,
        }
    }

    /// The window in a modulus.
    pub(crate) fn window_in(&self, modulus: Modulus) -> u8
        ensures window { result ≡ window_in (numbers modulus) self.now }
        ensures fits { IsWindow (numbers modulus) result (mode_in (numbers modulus) self.now) }
    {
        match modulus {
            Modulus::Eight => self.params.window,
            Modulus::OneTwentyEight => self.params.wide_window,
        }
    }

    /// The modulus in which the link calls.
    pub(crate) fn called_modulus(&self) -> Modulus
        ensures { numbers result ≡ called_modulus self.now }
    {
        if self.params.wide {
            Modulus::OneTwentyEight
        } else {
            Modulus::Eight
        }
    }
}
