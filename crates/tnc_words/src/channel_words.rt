//! What the words say of the access to the channel.
ghost use Rattle.std.specs.Prelude.{◌≡◌, IfSome, IsNone};
ghost use Rattle.clap.specs.Words.{found_of, rows_of};
ghost use Rattle.tnc_words.specs.declared.command.ChannelOptions.{ChannelOptions};
ghost use Rattle.tnc_words.specs.Channels.{HasChannel};

use crate::command::ChannelOptions;
use crate::number::{Bounds, number_found};
use crate::parsing::has_flag;
use clap::ArgMatches;

/// What KISS tells in one octet.
const OCTET: Bounds = Bounds {
    least: 0,
    greatest: 255,
};

/// The access to the channel among what was found.
pub(crate) fn channel(found: &ArgMatches) -> Option<ChannelOptions>
    ensures channel { IfSome result (HasChannel (rows_of (found_of found.now))) }
    ensures none { IsNone result → (channel : ChannelOptions) → ¬ HasChannel (rows_of (found_of found.now)) channel }
{
    Some(ChannelOptions {
        tx_delay: number_found(found, "txdelay", 30, OCTET)? as u8,
        tx_tail: number_found(found, "txtail", 2, OCTET)? as u8,
        persist: number_found(found, "persist", 63, OCTET)? as u8,
        slot_time: number_found(found, "slot", 10, OCTET)? as u8,
        full_duplex: has_flag(found, "duplex"),
    })
}
