//! What a station is made with.
ghost use Rattle.std.specs.Prelude.{◌≡◌, ℕ, ◌↔◌, IfOk};
ghost use Rattle.std.specs.Result.{IsErrOf};
ghost use Rattle.link_machine.specs.Params.{HasWindows, IsRefusedWindow};

use ax25_address::Call;
use channel_access::{Modem, Parameters};
use link_machine::Params;
use selective_reject::{BadWindow, check_window};
use std::marker::Model;

/// How a station's links ask for lost frames and call, how it takes the channel and sends, how long the packets of
/// hosts' data are, and for which call it repeats.
#[derive(Clone, Copy, Debug)]
pub struct Config {
    /// The modes and the windows of each link, and in which modulus it calls.
    pub params: Params,
    /// The modem that it sends by.
    pub modem: Modem,
    /// How it takes the channel until a host sets it otherwise.
    pub channel: Parameters,
    /// How many octets of a host's data go into a packet: 1 to 256. Less than 1 is as 1, and more than 256 is as 256.
    pub paclen: u16,
    /// The call of the digipeater, if the station is one.
    pub digi: Option<Call>,
}

impl Config {
    ghost use Rattle.station.specs.State.{usual_config};

    /// A station that sends by Bell 202, and has the usual parameters of the channel and the longest packets.
    pub fn new(params: Params, digi: Option<Call>) -> Config
        ensures { result ≡ usual_config params digi }
    {
        Config {
            params,
            modem: Modem::Bell202,
            channel: Parameters {
                tx_delay: 30,
                persist: 63,
                slot_time: 10,
                tx_tail: 2,
                full_duplex: false,
            },
            paclen: 256,
            digi,
        }
    }
}

/// Parameters of links whose windows fit.
#[derive(Drop)]
pub struct LinkParams {
    params: Params,
}

impl Model for LinkParams {
    ghost use Rattle.link_machine.specs.declared.params.Params.{Params};
    ghost use Rattle.link_machine.specs.Params.{HasWindows};

    ghost Value = { Params };

    ghost view = { λ s. s.params };

    ghost invariant = { λ s. HasWindows s.params };
}

impl LinkParams {
    /// Refuses the first window that does not fit its modulus.
    pub(crate) fn check(params: Params) -> Result<LinkParams, BadWindow>
        ensures params { IfOk result (λ fitting. fitting ≡ params) }
        ensures refused { (window : ℕ) → IsErrOf result (record { window = window })
            ↔ IsRefusedWindow params window }
    {
        check_window(8, params.window, params.mode)?;
        check_window(128, params.wide_window, params.wide_mode)?;
        Ok(LinkParams { params })
    }

    /// The parameters.
    pub(crate) fn get(&self) -> Params
        ensures value { result ≡ self.now }
        ensures fits { HasWindows result }
    {
        self.params
    }
}
