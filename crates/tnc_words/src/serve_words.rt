//! `serve` and its options.
ghost use Rattle.std.specs.Prelude.{◌≡◌, ℕ, Option, Some, IfOk, IfSome, IsErrOf, IsNone, is_some, ◌||◌, true, false, codes, map, option_map, string_bytes};
ghost use Rattle.std.specs.declared.net.ipv4_addr.Ipv4Addr.{Ipv4Addr};
ghost use Rattle.clap.specs.Words.{found_of, rows_of};
ghost use Rattle.tnc_words.specs.declared.command.Dcd.{Dcd};
ghost use Rattle.tnc_words.specs.declared.command.PttOptions.{PttOptions};
ghost use Rattle.tnc_words.specs.declared.command.ServeOptions.{ServeOptions};
ghost use Rattle.tnc_words.specs.Carriers.{HasDcd};
ghost use Rattle.tnc_words.specs.Keys.{HasPtt};
ghost use Rattle.tnc_words.specs.Numbers.{NamesNumber};
ghost use Rattle.tnc_words.specs.Ports.{HasAddress, HasPort};
ghost use Rattle.tnc_words.specs.StationModems.{IsStationModem};
ghost use Rattle.tnc_words.specs.Commands.{HasServeOptions, IsServe, first_word};

use crate::channel_words::channel;
use crate::command::{Dcd, PttOptions, ServeOptions, StationModem};
use crate::fault::WordsFault;
use crate::link_words::{call_said, link_params};
use crate::modem_words::checks_sent;
use crate::number::{Bounds, number_found, number_if_given, number_or_default, number_within};
use crate::options::SERVE;
use crate::parsing::{has_flag, parsed, text_of};
use crate::rate_words::station_rate;
use clap::ArgMatches;
use std::alloc::Global;
use std::net::Ipv4Addr;

/// The ports of TCP.
const PORT: Bounds = Bounds {
    least: 1,
    greatest: 65_535,
};

/// The seeds.
const SEED: Bounds = Bounds {
    least: 0,
    greatest: u64::MAX,
};

/// The octets of a packet.
const PACLEN: Bounds = Bounds {
    least: 16,
    greatest: 256,
};

/// For how many ticks a key stays on after the last one with sound.
const TAIL: Bounds = Bounds {
    least: 0,
    greatest: 500,
};

/// The seconds between two lines of counts: at most a day.
const SECONDS: Bounds = Bounds {
    least: 1,
    greatest: 86_400,
};

/// How many flags in a row make a channel busy.
const FLAGS: Bounds = Bounds {
    least: 1,
    greatest: 8,
};

/// And on short wave, and where blocks are read, since noise has single flags too often.
const ROW: Bounds = Bounds {
    least: 2,
    greatest: 8,
};

/// `serve` and its options, after its own word.
pub(crate) fn read_serve(alloc: Global, words: &[String]) -> Result<ServeOptions, WordsFault>
    requires { first_word (map string_bytes words.now) ≡ Some (codes "serve") }
    ensures taken { IfOk result (IsServe (map string_bytes words.now)) }
    ensures refused { IsErrOf result WordsFault.Refused
        → (serve : ServeOptions) → ¬ IsServe (map string_bytes words.now) serve }
{
    let found = parsed(alloc, "serve", &SERVE, words)?;
    match serve_options(&found) {
        Some(serve) => Ok(serve),
        None => Err(WordsFault::Refused),
    }
}

/// The options of `serve` among what was found.
fn serve_options(found: &ArgMatches) -> Option<ServeOptions>
    ensures options { IfSome result (HasServeOptions (rows_of (found_of found.now))) }
    ensures none { IsNone result → (serve : ServeOptions) → ¬ HasServeOptions (rows_of (found_of found.now)) serve }
{
    Some(ServeOptions {
        kiss: port_said(text_of(found, "kiss"), 8001)?,
        agw: port_said(text_of(found, "agw"), 8000)?,
        bind: address(text_of(found, "bind"))?,
        seed: number_if_given(text_of(found, "seed"), SEED)?,
        params: link_params(found)?,
        channel: channel(found)?,
        paclen: number_found(found, "paclen", 256, PACLEN)? as u16,
        digi: call_said(text_of(found, "digi"))?,
        dcd: dcd(
            is_by_flags(has_flag(found, "hf"), text_of(found, "fx25")),
            text_of(found, "dcd"),
        )?,
        modem: station_modem(
            has_flag(found, "hf"),
            has_flag(found, "sensitive"),
            text_of(found, "fx25"),
        )?,
        rate: station_rate(text_of(found, "rate"), text_of(found, "fx25"))?,
        monitor: has_flag(found, "monitor"),
        stats: seconds(text_of(found, "stats"))?,
        ptt: ptt(
            text_of(found, "ptt"),
            text_of(found, "ptt-tail"),
            has_flag(found, "ptt-data"),
        )?,
    })
}

/// The port that a text says: by its number, or none by the word `none`. The default if there is no text.
fn port_said(text: Option<&str>, default: u16) -> Option<Option<u16>>
    ensures port { IfSome result (HasPort (option_map (λ t. t.now) text.entry) default) }
    ensures none { IsNone result → (port : Option ℕ) → ¬ HasPort (option_map (λ t. t.now) text.entry) default port }
{
    let Some(text) = text else {
        return Some(Some(default));
    };
    if text == "none" {
        return Some(None);
    }
    Some(Some(number_within(text, PORT)? as u16))
}

/// The address that a text spells, or that of this machine alone if there is no text.
fn address(text: Option<&str>) -> Option<Ipv4Addr>
    ensures address { IfSome result (HasAddress (option_map (λ t. t.now) text.entry)) }
    ensures none { IsNone result → (address : Ipv4Addr) → ¬ HasAddress (option_map (λ t. t.now) text.entry) address }
{
    let Some(text) = text else {
        return Some(Ipv4Addr::new(127, 0, 0, 1));
    };
    text.parse().ok()
}

/// The seconds that a text says, or none if there is no text.
fn seconds(text: Option<&str>) -> Option<Option<u32>>
    ensures seconds { IfSome result (NamesNumber (option_map (λ t. t.now) text.entry) 1 86400) }
    ensures none { IsNone result → (seconds : Option ℕ)
        → ¬ NamesNumber (option_map (λ t. t.now) text.entry) 1 86400 seconds }
{
    let Some(text) = text else {
        return Some(None);
    };
    Some(Some(number_within(text, SECONDS)? as u32))
}

/// How the transmitter is keyed, as the texts of a port and of a tail say: by nothing if there is no port, and then there
/// may be no tail and no data socket either.
fn ptt(port: Option<&str>, tail: Option<&str>, socket: bool) -> Option<Option<PttOptions>>
    ensures ptt { IfSome result (HasPtt (option_map (λ t. t.now) port.entry) (option_map (λ t. t.now) tail.entry) socket) }
    ensures none { IsNone result → (ptt : Option PttOptions)
        → ¬ HasPtt (option_map (λ t. t.now) port.entry) (option_map (λ t. t.now) tail.entry) socket ptt }
{
    match (port, tail, socket) {
        (None, None, false) => Some(None),
        (None, None, true) => None,
        (None, Some(_), _) => None,
        (Some(port), tail, socket) => Some(Some(ptt_by(port, tail, socket)?)),
    }
}

/// The key at the port that a text says.
fn ptt_by(port: &str, tail: Option<&str>, socket: bool) -> Option<PttOptions>
    ensures ptt { IfSome result (λ ptt. HasPtt (Some port.now) (option_map (λ t. t.now) tail.entry) socket (Some ptt)) }
    ensures none { IsNone result → (ptt : PttOptions)
        → ¬ HasPtt (Some port.now) (option_map (λ t. t.now) tail.entry) socket (Some ptt) }
{
    Some(PttOptions {
        port: number_within(port, PORT)? as u16,
        tail: number_or_default(tail, 70, TAIL)? as u16,
        data_socket: socket,
    })
}

/// The modem, by whether it is for short wave, whether it is sensitive, and by the text of how many check octets it sends.
fn station_modem(hf: bool, sensitive: bool, checks: Option<&str>) -> Option<StationModem>
    ensures modem { IfSome result (IsStationModem hf sensitive (option_map (λ t. t.now) checks.entry)) }
    ensures none { IsNone result → (modem : StationModem)
        → ¬ IsStationModem hf sensitive (option_map (λ t. t.now) checks.entry) modem }
{
    match (hf, sensitive, checks) {
        (false, sensitive, None) => Some(StationModem::Bell202 { sensitive }),
        (true, sensitive, None) => Some(StationModem::ShortWave { sensitive }),
        (false, sensitive, Some(text)) => block_modem(text, sensitive),
        (true, _, Some(_)) => None,
    }
}

/// The modem that reads blocks, by the text of how many check octets it sends and whether it is sensitive.
fn block_modem(text: &str, sensitive: bool) -> Option<StationModem>
    ensures modem { IfSome result (IsStationModem false sensitive (Some text.now)) }
    ensures none { IsNone result → (modem : StationModem) → ¬ IsStationModem false sensitive (Some text.now) modem }
{
    let checks = checks_sent(text)?;
    Some(StationModem::Fx25 { checks, sensitive })
}

/// Whether other stations are heard by flags in a row alone.
fn is_by_flags(hf: bool, checks: Option<&str>) -> bool
    ensures { result ≡ (hf || is_some (option_map (λ t. t.now) checks.entry)) }
{
    hf || checks.is_some()
}

/// By what the channel is busy, as a text says.
fn dcd(by_flags: bool, text: Option<&str>) -> Option<Dcd>
    ensures dcd { IfSome result (HasDcd by_flags (option_map (λ t. t.now) text.entry)) }
    ensures none { IsNone result → (dcd : Dcd) → ¬ HasDcd by_flags (option_map (λ t. t.now) text.entry) dcd }
{
    if by_flags {
        row_of_flags(text)
    } else {
        tones_or_flags(text)
    }
}

/// By what it is on short wave, and where blocks are read: by so many flags in a row, or by three if there is no text.
fn row_of_flags(text: Option<&str>) -> Option<Dcd>
    ensures dcd { IfSome result (HasDcd true (option_map (λ t. t.now) text.entry)) }
    ensures none { IsNone result → (dcd : Dcd) → ¬ HasDcd true (option_map (λ t. t.now) text.entry) dcd }
{
    let Some(text) = text else {
        return Some(Dcd::Flags(3));
    };
    Some(Dcd::Flags(number_within(text, ROW)? as u8))
}

/// By what it is with Bell 202: by tones or so many flags in a row, or by tones if there is no text.
fn tones_or_flags(text: Option<&str>) -> Option<Dcd>
    ensures dcd { IfSome result (HasDcd false (option_map (λ t. t.now) text.entry)) }
    ensures none { IsNone result → (dcd : Dcd) → ¬ HasDcd false (option_map (λ t. t.now) text.entry) dcd }
{
    let Some(text) = text else {
        return Some(Dcd::Tones);
    };
    if text == "tones" {
        return Some(Dcd::Tones);
    }
    Some(Dcd::Flags(number_within(text, FLAGS)? as u8))
}
