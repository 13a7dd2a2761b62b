//! The client, octet by octet.

use super::octets::{
    CALL, CALL_VIA, CONNECTED, ENDED, LEAVE, OTHER_SAYS, REGISTER, REGISTERED, SAYS_HI, TEXT,
    TOO_LONG,
};
use super::words::words;
use crate::assertions::assert_equal;
use agwpe_client::{Client, ClientFault};
use std::alloc::Global;
use std::marker::Model;
use std::test::Fail;
use tnc_base::Octets;

/// What a client sent and printed, and how it ended.
#[derive(Drop)]
struct Outcome {
    sent: Vec<u8>,
    printed: Vec<u8>,
    fault: Option<ClientFault>,
    done: bool,
}

// No test needs a fact about an outcome, so its value shows none. Each test is then proved faster.
impl Model for Outcome {
    ghost use Rattle.std.specs.Prelude.{⊤};

    ghost Value = { ⊤ };

    ghost view = { λ _. tt };
}

/// A client that is given these messages, up to its first fault.
fn heard(alloc: Global, via: bool, expect: u32, host: &[&[u8]]) -> Result<Box<Outcome>, Fail> {
    let words = words(via, expect, 1);
    let text = Octets::from_slice(alloc, b"abc")?;
    let (mut client, register) = Client::new(
        alloc,
        words.own,
        words.remote,
        words.via,
        text,
        expect,
    )?;
    let mut outcome = Outcome {
        sent: register.as_slice().to_vec(alloc)?,
        printed: Vec::new(alloc),
        fault: None,
        done: false,
    };
    for message in host {
        outcome.fault = take(
            &mut client,
            message,
            &mut outcome.sent,
            &mut outcome.printed,
        )?;
    }
    outcome.done = client.done();
    Ok(Box::new(alloc, outcome)?)
}

/// Takes octets up to the first fault.
fn take(
    client: &mut Client,
    octets: &[u8],
    sent: &mut Vec<u8>,
    printed: &mut Vec<u8>,
) -> Result<Option<ClientFault>, Fail> {
    for octet in octets {
        match client.push(*octet) {
            Ok(out) => {
                sent.extend_from_slice(out.send.as_slice())?;
                printed.extend_from_slice(out.print.as_slice())?;
            }
            Err(fault) => return Ok(Some(fault)),
        }
    }
    Ok(None)
}

/// Each row: whether there are repeaters, after how many octets the caller disconnects, what the host sends, what it is
/// sent, what is printed, the fault of the last message, and whether the call is done.
type Row<'a> = (
    (bool, u32),
    &'a [&'a [u8]],
    &'a [&'a [u8]],
    &'a [u8],
    (Option<ClientFault>, bool),
);

const ROWS: &[Row<'static>] = &[
    // With nothing to wait for, d follows the text at once.
    (
        (false, 0),
        &[REGISTERED, CONNECTED, SAYS_HI, ENDED],
        &[REGISTER, CALL, TEXT, LEAVE],
        b"hi",
        (None, true),
    ),
    // It is sent with the third octet that is printed, once, and octets of other calls do not count.
    (
        (true, 3),
        &[REGISTERED, CONNECTED, OTHER_SAYS, SAYS_HI, SAYS_HI, SAYS_HI],
        &[REGISTER, CALL_VIA, TEXT, LEAVE],
        b"hihihi",
        (None, false),
    ),
    (
        (false, 0),
        &[REGISTERED, ENDED],
        &[REGISTER, CALL],
        b"",
        (Some(ClientFault::Refused), false),
    ),
    (
        (false, 0),
        &[TOO_LONG],
        &[REGISTER],
        b"",
        (Some(ClientFault::Broken { len: 4097 }), false),
    ),
    (
        (false, 0),
        &[REGISTERED, ENDED, CONNECTED],
        &[REGISTER, CALL],
        b"",
        (Some(ClientFault::Over), false),
    ),
];

#[test]
fn goes_by_the_table_of_a_call(rt: HostRuntime) -> Result<(), Fail> {
    let alloc = rt.alloc();
    for ((via, expect), host, sent, printed, end) in ROWS {
        let got = heard(alloc, *via, *expect, host)?;
        let sent = sent.concat(alloc)?;
        assert_equal(&rt, &got.sent.as_slice(), &sent.as_slice());
        assert_equal(&rt, &got.printed.as_slice(), printed);
        assert_equal(&rt, &(got.fault, got.done), end);
    }
    Ok(())
}
