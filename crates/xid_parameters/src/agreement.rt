//! What two stations agree on.
ghost use Rattle.std.specs.Prelude.{◌≡◌, ◌≤◌, min, max};
ghost use Rattle.xid_parameters.specs.Agreement.{agreed_on, both_duplex, both_mode, both_modulus, together, longer};

use crate::parameters::{Duplex, LinkParameters, ToldParameters};
use ax25_frames::Modulus;
use selective_reject::Mode;

/// What this station and another agree on (AX.25 2.2 section 6.3.2): what both can do, the smaller sizes, and the longer
/// patience. What the other does not tell stays as this station has it.
pub fn agreed(own: &LinkParameters, told: &ToldParameters) -> LinkParameters
    ensures { result ≡ agreed_on own.now told.now }
{
    LinkParameters {
        duplex: agreed_duplex(own.duplex, told.duplex),
        mode: agreed_mode(own.mode, told.mode),
        modulus: agreed_modulus(own.modulus, told.modulus),
        info_octets: agreed_info_octets(own.info_octets, told.info_octets),
        window: agreed_window(own.window, told.window),
        t1: agreed_t1(own.t1, told.t1),
        retries: agreed_retries(own.retries, told.retries),
    }
}

/// Full duplex if both have it.
fn agreed_duplex(own: Duplex, told: Option<Duplex>) -> Duplex
    ensures { result ≡ together both_duplex own told }
{
    match (own, told) {
        (Duplex::Full, Some(other)) => other,
        (own, _) => own,
    }
}

/// SREJ if both know it.
fn agreed_mode(own: Mode, told: Option<Mode>) -> Mode
    ensures { result ≡ together both_mode own told }
{
    match (own, told) {
        (Mode::Srej, Some(other)) => other,
        (own, _) => own,
    }
}

/// 128 if both count so far.
fn agreed_modulus(own: Modulus, told: Option<Modulus>) -> Modulus
    ensures { result ≡ together both_modulus own told }
{
    match (own, told) {
        (Modulus::OneTwentyEight, Some(other)) => other,
        (own, _) => own,
    }
}

/// The smaller N1.
fn agreed_info_octets(own: u16, told: Option<u32>) -> u16
    ensures { result ≡ together min own told }
{
    match told {
        Some(other) => u32::from(own).min(other) as u16,
        None => own,
    }
}

/// The smaller window.
fn agreed_window(own: u8, told: Option<u8>) -> u8
    ensures { result ≡ together min own told }
{
    match told {
        Some(other) => own.min(other),
        None => own,
    }
}

/// The longer T1, as far as the timer goes.
fn agreed_t1(own: u16, told: Option<u32>) -> u16
    ensures { result ≡ together longer own told }
{
    match told {
        Some(other) => u32::from(u16::MAX).min(u32::from(own).max(other)) as u16,
        None => own,
    }
}

/// The more retries.
fn agreed_retries(own: u8, told: Option<u8>) -> u8
    ensures { result ≡ together max own told }
{
    match told {
        Some(other) => own.max(other),
        None => own,
    }
}
