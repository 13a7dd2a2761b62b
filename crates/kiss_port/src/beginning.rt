//! The first octets of a host's connection.

ghost use Rattle.std.specs.Prelude.{◌≡◌, []};
ghost use Rattle.kiss_port.specs.HeldHost.{beginning_of, beginning_with, tells_web};
ghost use Rattle.kiss_port.specs.WebRequests.{has_web_beginning};

use crate::request_line::RequestLine;
use std::marker::Model;

// The most octets that are kept: CONNECT and OPTIONS have seven letters, and a blank stands after them.
const MOST_KEPT: usize = 8;

#[derive(Drop)]
pub(crate) struct Beginning {
    octets: [u8; MOST_KEPT],
    count: usize,
    line: RequestLine,
}

impl Model for Beginning {
    ghost use Rattle.std.specs.Prelude.{take, ◌≤◌};
    ghost use Rattle.kiss_port.specs.HeldHost.{HeldBeginning};

    ghost Value = { HeldBeginning };

    ghost view = { λ b. record { first = take b.count b.octets; line = b.line } };

    ghost invariant = { λ b. b.count ≤ 8 };
}

impl Beginning {
    // Nothing has come.
    pub(crate) fn new() -> Self
        ensures { result ≡ beginning_of [] }
    {
        Beginning {
            octets: [0; MOST_KEPT],
            count: 0,
            line: RequestLine::Empty,
        }
    }

    // The beginning with the next octet, which is kept if there is room.
    pub(crate) fn with(&self, octet: u8) -> Self
        ensures { result ≡ beginning_with self.now octet }
    {
        let line = self.line.with(octet);
        let mut octets = self.octets;
        if self.count == MOST_KEPT {
            return Beginning {
                octets,
                count: MOST_KEPT,
                line,
            };
        }
        octets[self.count] = octet;
        Beginning {
            octets,
            count: self.count + 1,
            line,
        }
    }

    // Whether a program of the web begins so.
    pub(crate) fn is_web_request(&self) -> bool
        ensures { result ≡ tells_web self.now }
    {
        let first = &self.octets[..self.count];
        has_web_beginning(first) || self.line.is_request()
    }
}

// Whether octets begin with one of the methods of HTTP and a blank, or with a TLS handshake.
#[tactic(auto, unfolding(crate::specs::WebRequests::has_web_beginning))]
fn has_web_beginning(octets: &[u8]) -> bool
    ensures { result ≡ has_web_beginning octets.now }
{
    octets.starts_with(b"GET ")
        || octets.starts_with(b"HEAD ")
        || octets.starts_with(b"POST ")
        || octets.starts_with(b"PUT ")
        || octets.starts_with(b"DELETE ")
        || octets.starts_with(b"CONNECT ")
        || octets.starts_with(b"OPTIONS ")
        || octets.starts_with(b"TRACE ")
        || octets.starts_with(b"PATCH ")
        || octets.starts_with(b"PRI ")
        || octets.starts_with(&[0x16, 0x03])
}
