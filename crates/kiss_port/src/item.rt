//! What a piece of the stream says.

ghost use Rattle.std.specs.Prelude.{◌≡◌, ◌≤◌, length, IfOk};
ghost use Rattle.kiss_port.specs.Held.{kept_item};
ghost use Rattle.kiss_port.specs.Items.{by_command, most_octets};

use std::alloc::Global;
use tnc_base::{Octets, OutOfMemory};

/// What a piece of the stream says. The port is the high four bits of its first octet, the command the low four.
#[derive(Debug, Drop)]
pub enum KissItem {
    /// Command 0: a frame without its check sequence.
    Frame {
        port: u8,
        octets: Octets,
    },
    /// Command 12: a frame whose sending the host wants to be told, and the two octets by which it knows it.
    AckFrame {
        port: u8,
        mark: [u8; 2],
        octets: Octets,
    },
    /// A command from 1 to 5 with a value: 1 TXDELAY, 2 persistence, 3 slot time, 4 TXtail, 5 full duplex.
    Set {
        port: u8,
        command: u8,
        value: u8,
    },
    /// Command 6: what only some hardware understands.
    Hardware {
        port: u8,
        octets: Octets,
    },
    /// The octet FF: the host wants the TNC to leave KISS.
    Return,
    /// More than 1024 octets stand after the first one, or more than 1026 if the command is 12.
    TooLong {
        port: u8,
    },
    /// Any other command, one from 1 to 5 without a value, and 12 without its two octets.
    Other {
        port: u8,
        command: u8,
    },
}

// What asks to be told when a frame has been sent.
const ACK_COMMAND: u8 = 12;

// The most octets after a type: a frame of 1024, and before it what command 12 has besides.
fn most_octets(kind: u8) -> usize
    ensures { result ≡ most_octets kind }
{
    if kind % 16 == ACK_COMMAND { 1026 } else { 1024 }
}

impl KissItem {
    /// The item of a piece of which this was kept: its octets, or if there were more than fit, the first of them.
    pub(crate) fn of_kept(
        alloc: Global,
        long: bool,
        kept: &[u8],
    ) -> Result<Option<KissItem>, OutOfMemory>
        requires { length kept.now ≤ 1027 }
        ensures { IfOk result (λ item. item ≡ kept_item long kept.now) }
    {
        let [kind, octets @ ..] = kept else {
            return Ok(None);
        };
        let port = kind / 16;
        if long || octets.len() > most_octets(*kind) {
            return Ok(Some(KissItem::TooLong { port }));
        }
        if *kind == 0xff {
            return Ok(Some(KissItem::Return));
        }
        let item = KissItem::of_command(alloc, port, kind % 16, octets)?;
        Ok(Some(item))
    }

    fn of_command(
        alloc: Global,
        port: u8,
        command: u8,
        octets: &[u8],
    ) -> Result<KissItem, OutOfMemory>
        ensures { IfOk result (λ item. item ≡ by_command port command octets.now) }
    {
        match (command, octets) {
            (0, _) => {
                let octets = Octets::from_slice(alloc, octets)?;
                Ok(KissItem::Frame { port, octets })
            }
            (1..=5, [value, ..]) => Ok(KissItem::Set {
                port,
                command,
                value: *value,
            }),
            (6, _) => {
                let octets = Octets::from_slice(alloc, octets)?;
                Ok(KissItem::Hardware { port, octets })
            }
            (ACK_COMMAND, [first, second, octets @ ..]) => {
                let octets = Octets::from_slice(alloc, octets)?;
                Ok(KissItem::AckFrame {
                    port,
                    mark: [*first, *second],
                    octets,
                })
            }
            _ => Ok(KissItem::Other { port, command }),
        }
    }
}
