//! Calls in the fields of an AGWPE header.
ghost use Rattle.std.specs.Prelude.{◌≡◌, ℕ, ◌==◌, ◌≤◌, length};
ghost use Rattle.std.specs.List.{position_or_len};
ghost use Rattle.station.specs.CallFields.{call_in, call_of_text, field_text, sent_back};

use agwpe_port::call_text;
use ax25_address::Call;
use std::str;

/// The call of a field, if it is one.
pub(crate) fn call_in(field: &[u8]) -> Option<Call>
    ensures { result ≡ call_in field.now }
{
    call_of(text_of(field))
}

/// A field as it is sent back: a call in its one text, and anything else as it came.
pub(crate) fn sent_back(field: [u8; 10]) -> [u8; 10]
    ensures { result ≡ sent_back field }
{
    match call_in(&field) {
        Some(call) => call_text(&call),
        None => field,
    }
}

/// The octets before the first NUL, or all of them.
pub(crate) fn text_of(field: &[u8]) -> &[u8]
    ensures text { result.now ≡ field_text field.now }
    ensures bound { length result.now ≤ length field.now }
{
    &field[..first_nul(field)]
}

fn first_nul(field: &[u8]) -> usize
    ensures place { result ≡ position_or_len (λ octet. octet == 0) field.now }
    ensures within { result ≤ length field.now }
{
    for place in 0..field.len() {
        if field[place] == 0 {
            return place;
        }
    }
    field.len()
}

fn call_of(text: &[u8]) -> Option<Call>
    ensures { result ≡ call_of_text text.now }
{
    let Ok(text) = str::from_utf8(text) else {
        return None;
    };
    match Call::parse(text) {
        Ok(call) => Some(call),
        Err(_) => None,
    }
}
