//! The names of frames, in capitals.
ghost use Rattle.std.specs.Prelude.{◌≡◌};
ghost use Rattle.ax25_frames.specs.FrameText.{supervisory_name, setup_name, other_name};

use crate::frame::{S, U, W};

impl S {
    /// The name of a supervisory frame.
    pub fn name(self) -> &'static str
        ensures { result.now ≡ supervisory_name self }
    {
        match self {
            S::Rr => "RR",
            S::Rnr => "RNR",
            S::Rej => "REJ",
            S::Srej => "SREJ",
        }
    }
}

impl U {
    /// The name of a frame that sets up or ends a link.
    pub fn name(self) -> &'static str
        ensures { result.now ≡ setup_name self }
    {
        match self {
            U::Sabm => "SABM",
            U::Sabme => "SABME",
            U::Disc => "DISC",
            U::Dm => "DM",
            U::Ua => "UA",
        }
    }
}

impl W {
    /// The name of another unnumbered frame.
    pub fn name(self) -> &'static str
        ensures { result.now ≡ other_name self }
    {
        match self {
            W::Frmr => "FRMR",
            W::Xid => "XID",
            W::Test => "TEST",
        }
    }
}
