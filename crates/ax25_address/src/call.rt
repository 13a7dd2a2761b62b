//! A station's call and its text.
ghost use Rattle.std.specs.Prelude.{◌≡◌, ℕ, ◌+◌, ◌<◌, ◌≤◌, ◌↔◌, [], ◌∷◌, length, take, map, IsTrue, IsOk, IfOk, IfErr};
ghost use Rattle.std.specs.Prelude.{Ok, Err, Some, IfSome, ◌++◌, slice_index};
ghost use Rattle.ax25_address.specs.Callsign.{Callsign, IsName, IsCall, IsCallCharacter, padded};
ghost use Rattle.ax25_address.specs.Held.{IsHeld};
ghost use Rattle.ax25_address.specs.CallText.{text_of_call, IsCallText, IsFaultOf, TellsSsid, TellsNoSsid, name_part};
ghost use Rattle.ax25_address.specs.CallText.{ssid_part, ssid_suffix, dash_place};
ghost use Rattle.ax25_address.specs.declared.call.CallFault.{CallFault};
ghost use Rattle.std.specs.Char.{to_ascii_uppercase};
ghost use Rattle.arrayvec.specs.ArrayString.{array_string_len};

use arrayvec::{ArrayString, ArrayVec};
use std::marker::Model;
use thiserror::Error;

/// Why a text and an SSID are no call.
#[derive(Clone, Copy, Debug, PartialEq, Eq, Error)]
pub enum CallFault {
    /// There is no character.
    #[error("a call has at least one character")]
    Empty,
    /// There are more than six characters.
    #[error("a call has at most six characters")]
    TooLong,
    /// The character at `index` is the first that is neither A to Z nor 0 to 9.
    #[error("character {index} is no letter or digit")]
    BadChar { index: usize },
    /// The SSID is no number from 0 to 15.
    #[error("an SSID is a number from 0 to 15")]
    BadSsid,
}

/// A station's call: one to six characters of A to Z and 0 to 9, and an SSID of 0 to 15
/// (AX.25 2.2 section 3.12).
#[derive(Clone, Copy, Debug, PartialEq, Eq)]
pub struct Call {
    characters: [u8; 6],
    len: usize,
    ssid: u8,
}

impl Model for Call {
    ghost use Rattle.std.specs.Prelude.{take, length};
    ghost use Rattle.ax25_address.specs.Callsign.{Callsign, padded};
    ghost use Rattle.ax25_address.specs.Held.{IsHeld};

    ghost Value = { Callsign };

    ghost view = { λ c. record { name = take c.len c.characters; ssid = c.ssid } };

    ghost invariant = { λ c. IsHeld c.characters c.len c.ssid };

    ghost inverse = { λ v. record { characters = padded v.name; len = length v.name; ssid = v.ssid } };

    ghost use Rattle.ax25_address.specs.Kept.{fields_back};

    ghost inverse_ok = { fields_back };
}

impl Call {
    /// The call of these characters and this SSID. The faults come in the order of [`CallFault`].
    pub fn new(text: &str, ssid: u8) -> Result<Self, CallFault>
        ensures call { IfOk result (λ call. call ≡ record { name = text.now; ssid = ssid }) }
        ensures accepted { IsOk result ↔ (IsName text.now × (ssid < 16)) }
        ensures refused { IfErr result (IsFaultOf text.now (16 ≤ ssid)) }
        ensures each_fault { (fault : CallFault) → IsFaultOf text.now (16 ≤ ssid) fault → result ≡ Err fault }
    {
        let call = Call::named(text.as_bytes())?;
        if ssid > 15 {
            return Err(CallFault::BadSsid);
        }
        Ok(call.with_ssid(ssid))
    }

    /// The call of a text: `CALL`, or `CALL-n` with n from 0 to 15 in decimal and without leading
    /// zeros. Small letters are read as capitals. Places are counted in the text, and a number that
    /// is no SSID is the fault [`CallFault::BadSsid`].
    pub fn parse(text: &str) -> Result<Self, CallFault>
        ensures call { IfOk result (IsCallText text.now) }
        ensures accepted { (call : Callsign) → IsCallText text.now call → result ≡ Ok call }
        ensures refused { IfErr result (IsFaultOf (name_part text.now) (TellsNoSsid (ssid_part text.now))) }
        ensures each_fault { (fault : CallFault)
            → IsFaultOf (name_part text.now) (TellsNoSsid (ssid_part text.now)) fault → result ≡ Err fault }
    {
        let characters = text.as_bytes();
        let (letters, tail) = characters.split_at(first_dash(characters));
        if letters.len() > 6 {
            return Err(CallFault::TooLong);
        }
        let call = Call::named(capitals(letters).as_slice())?;
        match ssid_of(tail) {
            Some(ssid) => Ok(call.with_ssid(ssid)),
            None => Err(CallFault::BadSsid),
        }
    }

    /// The text of the call: `CALL`, or `CALL-n` if the SSID is not 0.
    pub fn text(&self) -> ArrayString<9>
        ensures text { result.bytes ≡ text_of_call self.now }
        ensures parsed_again { IsCallText result.bytes self.now }
    {
        let mut text = ArrayString::new();
        for index in 0..self.len {
            text.push(char::from(self.characters[index]));
        }
        if self.ssid > 0 {
            push_ssid(&mut text, self.ssid);
        }
        text
    }

    /// The call of this name with SSID 0.
    fn named(name: &[u8]) -> Result<Self, CallFault>
        ensures call { IfOk result (λ call. (call.name ≡ name.now) × (call.ssid ≡ 0)) }
        ensures valid { IfOk result (λ _. IsName name.now) }
        ensures refused { IfErr result (IsFaultOf name.now ⊥) }
    {
        if name.is_empty() {
            return Err(CallFault::Empty);
        }
        if name.len() > 6 {
            return Err(CallFault::TooLong);
        }
        let mut characters = [b' '; 6];
        for index in 0..name.len() {
            let character = name[index];
            if !is_call_character(character) {
                return Err(CallFault::BadChar { index });
            }
            characters[index] = character;
        }
        Ok(Call::from_characters(characters, name.len(), 0))
    }

    /// The call of six characters as they are sent, of which the first `len` are its name.
    pub(crate) fn from_characters(characters: [u8; 6], len: usize, ssid: u8) -> Self
        requires { IsHeld characters len ssid }
        ensures { result ≡ record { name = take len characters; ssid = ssid } }
    {
        Call {
            characters,
            len,
            ssid,
        }
    }

    /// The six characters as they are sent, with spaces after the name.
    pub(crate) fn characters(&self) -> &[u8]
        ensures characters { result.now ≡ padded self.now.name }
        ensures size { length result.now ≡ 6 }
        ensures seven_bits { (k : ℕ) → slice_index result.now k < 128 }
    {
        &self.characters
    }

    /// The SSID, and that this is a call as the standard allows it.
    pub(crate) fn ssid(&self) -> u8
        ensures ssid { result ≡ self.now.ssid }
        ensures valid { IsCall self.now }
    {
        self.ssid
    }

    /// The call of the same name with another SSID.
    pub(crate) fn with_ssid(self, ssid: u8) -> Self
        requires { ssid < 16 }
        ensures { result ≡ record self { ssid = ssid } }
    {
        let characters = self.characters;
        Call {
            characters,
            len: self.len,
            ssid,
        }
    }
}

impl Default for Call {
    ghost use Rattle.std.specs.Prelude.{◌≡◌, [], ◌∷◌};

    ghost is_default = { λ call. call ≡ record { name = 65 ∷ []; ssid = 0 } };

    /// The call `A` with SSID 0.
    fn default() -> Self {
        Call::from_characters(*b"A     ", 1, 0)
    }
}

/// Appends a dash and the SSID in decimal.
fn push_ssid(text: &mut ArrayString<9>, ssid: u8)
    requires room { array_string_len text.old ≤ 6 }
    requires valid { ssid < 16 }
    ensures { text.new.bytes ≡ text.old.bytes ++ ssid_suffix ssid }
{
    text.push('-');
    if ssid < 10 {
        text.push(char::from(b'0' + ssid));
        return;
    }
    text.push('1');
    text.push(char::from(b'0' + (ssid - 10)));
}

/// The letters with capitals in place of small ones.
fn capitals(letters: &[u8]) -> ArrayVec<u8, 6>
    requires { length letters.now ≤ 6 }
    ensures { result.items ≡ map to_ascii_uppercase letters.now }
{
    let mut name = ArrayVec::new();
    for letter in letters {
        name.push(letter.to_ascii_uppercase());
    }
    name
}

/// Where the first dash stands, or the length if there is none.
fn first_dash(characters: &[u8]) -> usize
    ensures place { result ≡ dash_place characters.now }
    ensures within { result ≤ length characters.now }
{
    for place in 0..characters.len() {
        if characters[place] == b'-' {
            return place;
        }
    }
    characters.len()
}

/// The SSID that stands after a name: 0 if nothing does, and else a dash and a number from 0 to 15.
fn ssid_of(tail: &[u8]) -> Option<u8>
    ensures ssid { IfSome result (λ ssid. (ssid < 16) × TellsSsid tail.now ssid) }
    ensures exact { (ssid : ℕ) → ssid < 16 → TellsSsid tail.now ssid → result ≡ Some ssid }
{
    if tail.is_empty() {
        return Some(0);
    }
    if tail[0] != b'-' {
        return None;
    }
    if tail.len() == 2 && tail[1].is_ascii_digit() {
        return Some(tail[1] - b'0');
    }
    if tail.len() == 3 && tail[1] == b'1' && b'0' <= tail[2] && tail[2] <= b'5' {
        return Some(10 + (tail[2] - b'0'));
    }
    None
}

/// Whether a call may have the character.
pub(crate) fn is_call_character(character: u8) -> bool
    ensures { IsTrue result ↔ IsCallCharacter character }
{
    character.is_ascii_uppercase() || character.is_ascii_digit()
}
