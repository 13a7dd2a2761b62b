//! The information of an XID frame, read.
ghost use Rattle.std.specs.Prelude.{◌≡◌, ℕ, ◌+◌, ◌<◌, ◌≤◌, List, [], ◌∷◌, ◌++◌, length, take, drop, IsNone, IfSome};
ghost use Rattle.std.specs.Prelude.{slice_index};
ghost use Rattle.xid_parameters.specs.XidField.{Parameter, group_octets, IsXidField};
ghost use Rattle.xid_parameters.specs.Told.{told_by};
ghost use Rattle.xid_parameters.specs.Reading.{told_in_xid};

use crate::parameters::ToldParameters;
use crate::values::{
    duplex_in, info_octets_in, mode_in, modulus_in, number_in, octet_in, window_in,
};

/// The format identifier: a general format (ISO 8885).
const FORMAT: u8 = 0x82;

/// The group identifier: parameters that are negotiated.
const GROUP: u8 = 0x80;

/// The identifiers of parameters.
const CLASSES_OF_PROCEDURES: u8 = 2;

const OPTIONAL_FUNCTIONS: u8 = 3;

const INFO_LENGTH: u8 = 6;

const WINDOW: u8 = 8;

const ACKNOWLEDGE_TIMER: u8 = 9;

const RETRIES: u8 = 10;

/// Reads the information of an XID frame: what it tells, or `None` if it spells no parameters.
pub fn read_xid(octets: &[u8]) -> Option<ToldParameters>
    ensures told { IfSome result (λ told. (parameters : List Parameter)
        × IsXidField parameters octets.now × (told ≡ told_by parameters)) }
    ensures none { IsNone result → (parameters : List Parameter) → ¬ IsXidField parameters octets.now }
{
    if octets.len() < 4 || octets[0] != FORMAT || octets[1] != GROUP {
        return None;
    }
    let group = &octets[4..];
    let told = 256 * octets[2] as usize + octets[3] as usize;
    if group.len() != told {
        return None;
    }
    read_group(group)
}

/// What the information of an XID frame tells, which is nothing if it spells no parameters.
pub fn told_in_xid(octets: &[u8]) -> ToldParameters
    ensures { result ≡ told_in_xid octets.now }
{
    match read_xid(octets) {
        Some(told) => told,
        None => ToldParameters::nothing(),
    }
}

/// Reads parameters one after another.
fn read_group(group: &[u8]) -> Option<ToldParameters>
    ensures told { IfSome result (λ told. (parameters : List Parameter)
        × (group.now ≡ group_octets parameters) × (told ≡ told_by parameters)) }
    ensures none { IsNone result → (parameters : List Parameter) → ¬ (group.now ≡ group_octets parameters) }
{
    let mut told = ToldParameters::nothing();
    let mut at = 0;
    while at < group.len() {
        let value = value_at(group, at)?;
        told = told.with(group[at], value);
        at += 2 + value.len();
    }
    Some(told)
}

/// The value of the parameter that begins at a place: as many octets as the second octet there tells.
fn value_at(group: &[u8], at: usize) -> Option<&[u8]>
    requires { at < length group.now }
    ensures whole { IfSome result (λ value. at + 2 + length value.now ≤ length group.now) }
    ensures value { IfSome result (λ value.
        take (2 + length value.now) (drop at group.now) ≡ slice_index group.now at ∷ length value.now ∷ value.now) }
    ensures none { IsNone result → (p : Parameter) (rest : List ℕ)
        → ¬ (drop at group.now ≡ p.identifier ∷ length p.value ∷ (p.value ++ rest)) }
{
    if group.len() - at < 2 {
        return None;
    }
    let start = at + 2;
    let end = start + group[at + 1] as usize;
    if end > group.len() {
        return None;
    }
    Some(&group[start..end])
}

impl ToldParameters {
    /// Nothing is told.
    fn nothing() -> ToldParameters
        ensures { result ≡ told_by [] }
    {
        ToldParameters {
            duplex: None,
            mode: None,
            modulus: None,
            info_octets: None,
            window: None,
            t1: None,
            retries: None,
        }
    }

    /// What is told if a parameter follows.
    fn with(self, identifier: u8, value: &[u8]) -> ToldParameters
        ensures { (before : List Parameter) → self ≡ told_by before
            → result ≡ told_by (before ++ record { identifier = identifier; value = value.now } ∷ []) }
    {
        if identifier == CLASSES_OF_PROCEDURES {
            ToldParameters {
                duplex: duplex_in(value),
                ..self
            }
        } else if identifier == OPTIONAL_FUNCTIONS {
            ToldParameters {
                mode: mode_in(value),
                modulus: modulus_in(value),
                ..self
            }
        } else if identifier == INFO_LENGTH {
            ToldParameters {
                info_octets: info_octets_in(value),
                ..self
            }
        } else if identifier == WINDOW {
            ToldParameters {
                window: window_in(value),
                ..self
            }
        } else if identifier == ACKNOWLEDGE_TIMER {
            ToldParameters {
                t1: number_in(value),
                ..self
            }
        } else if identifier == RETRIES {
            ToldParameters {
                retries: octet_in(value),
                ..self
            }
        } else {
            self
        }
    }
}
