//! What a host sets (the KISS TNC protocol, Chepponis and Karn, commands 1 to 5).
ghost use Rattle.std.specs.Prelude.{◌≡◌, ◌≤◌};
ghost use Rattle.channel_access.specs.Parameters.{flags_in};
ghost use Rattle.channel_access.specs.Parameters.{default_parameters, with_param, opening_flags, closing_flags};

use crate::modem::Modem;

/// A parameter, and what it is set to. Times are in units of 10 ms.
#[derive(Clone, Copy, Debug, PartialEq, Eq)]
pub enum Param {
    /// TXDELAY: how long flags are sent before the first frame.
    TxDelay(u8),
    /// P: a draw from 0 to 255 begins a transmission if it is at most this.
    Persist(u8),
    /// The slot time: how long a transmission waits after a draw that began none.
    SlotTime(u8),
    /// TXtail: how long flags are sent after the last frame.
    TxTail(u8),
    /// Full duplex: a transmission begins whether or not the channel is busy.
    FullDuplex(bool),
}

/// All of them, as [`Param`] names them.
#[derive(Clone, Copy, Debug)]
pub struct Parameters {
    /// TXDELAY, in units of 10 ms.
    pub tx_delay: u8,
    /// P.
    pub persist: u8,
    /// The slot time, in units of 10 ms.
    pub slot_time: u8,
    /// TXtail, in units of 10 ms.
    pub tx_tail: u8,
    /// Full duplex.
    pub full_duplex: bool,
}

impl Parameters {
    /// Half duplex, 500 ms of opening flags, and one of four draws begins.
    pub(crate) fn new() -> Parameters
        ensures { result ≡ default_parameters }
    {
        Parameters {
            tx_delay: 30,
            persist: 63,
            slot_time: 10,
            tx_tail: 2,
            full_duplex: false,
        }
    }

    /// Sets one.
    pub(crate) fn set(&mut self, param: Param)
        ensures { self.new ≡ with_param param self.old }
    {
        match param {
            Param::TxDelay(ticks) => self.tx_delay = ticks,
            Param::Persist(most) => self.persist = most,
            Param::SlotTime(ticks) => self.slot_time = ticks,
            Param::TxTail(ticks) => self.tx_tail = ticks,
            Param::FullDuplex(on) => self.full_duplex = on,
        }
    }
}

/// The flags that open a transmission.
pub(crate) fn opening_flags(modem: Modem, tx_delay: u8) -> u16
    ensures count { result ≡ opening_flags modem tx_delay }
    ensures least { 2 ≤ result }
    ensures most { result ≤ 382 }
{
    flags_in(modem, tx_delay).max(2)
}

/// The flags that close one.
pub(crate) fn closing_flags(modem: Modem, tx_tail: u8) -> u16
    ensures count { result ≡ closing_flags modem tx_tail }
    ensures least { 1 ≤ result }
    ensures most { result ≤ 382 }
{
    flags_in(modem, tx_tail).max(1)
}

/// The flags of so many ticks: at 1200 bits a second three in two ticks, as many as fit, and at 300 bits a second one in
/// eight thirds of a tick, as many as fill the time.
fn flags_in(modem: Modem, ticks: u8) -> u16
    ensures count { result ≡ flags_in modem ticks }
    ensures most { result ≤ 382 }
{
    let thrice = 3 * u16::from(ticks);
    match modem {
        Modem::Bell202 | Modem::Fx25(_) => thrice / 2,
        Modem::ShortWave => (thrice + 7) / 8,
    }
}
