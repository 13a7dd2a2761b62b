//! The calls of an AGWPE message: from which to which, and by way of which repeaters.
ghost use Rattle.std.specs.Prelude.{◌≡◌, ◌*◌, ◌≤◌, ◌≢◌, [], length, slice_index, drop, Some, None, option_map};
ghost use Rattle.arrayvec.specs.ArrayVec.{array_vec_len};
ghost use Rattle.station.specs.HeldRoutes.{as_route, route_held};
ghost use Rattle.station.specs.Routes.{after_repeaters, calls_in, path_along, repeaters_in, route_in};

use crate::call_fields::call_in;
use arrayvec::ArrayVec;
use ax25_address::{Call, Hop, Path, Role};

/// How many octets a call takes in a list of repeaters.
const CALL_FIELD: usize = 10;

/// The most repeaters of a frame.
const MOST_REPEATERS: u8 = 8;

/// From which call to which, and by way of which repeaters.
#[derive(Debug, Drop)]
pub struct Route {
    /// The call of this station.
    pub local: Call,
    /// The call of the other one.
    pub remote: Call,
    /// The repeaters, in the order in which they repeat a frame.
    pub repeaters: ArrayVec<Call, 8>,
}

impl Route {
    /// A frame's path along the route.
    pub(crate) fn path(&self) -> Path
        ensures { result ≡ path_along (as_route self.now) }
    {
        let mut repeaters = ArrayVec::new();
        for call in self.repeaters.as_slice() {
            repeaters.push(Hop {
                call: *call,
                done: false,
            });
        }
        Path {
            dest: self.remote,
            source: self.local,
            repeaters,
            role: Role::Command,
        }
    }
}

/// The route of the fields CallFrom and CallTo, if both are calls and the repeaters are.
pub(crate) fn route_in(
    from: &[u8],
    to: &[u8],
    repeaters: Option<ArrayVec<Call, 8>>,
) -> Option<Route>
    ensures { route_held result ≡ route_in from.now to.now (option_map (λ calls. calls.items) repeaters) }
{
    let Some(local) = call_in(from) else {
        return None;
    };
    let Some(remote) = call_in(to) else {
        return None;
    };
    let Some(repeaters) = repeaters else {
        return None;
    };
    Some(Route {
        local,
        remote,
        repeaters,
    })
}

/// The repeaters that a body begins with: a count of at most 8, and so many calls.
pub(crate) fn repeaters_in(body: &[u8]) -> Option<ArrayVec<Call, 8>>
    ensures { option_map (λ calls. calls.items) result ≡ repeaters_in body.now }
{
    if body.is_empty() {
        return None;
    }
    let count = body[0];
    let octets = &body[1..];
    if count > MOST_REPEATERS || octets.len() < CALL_FIELD * count as usize {
        return None;
    }
    calls_in(count, octets)
}

/// So many calls of ten octets each, if all of them are calls.
fn calls_in(count: u8, octets: &[u8]) -> Option<ArrayVec<Call, 8>>
    requires few { count ≤ 8 }
    requires there { 10 * count ≤ length octets.now }
    ensures { option_map (λ calls. calls.items) result ≡ calls_in count octets.now }
{
    let mut calls = ArrayVec::new();
    for k in 0..count as usize {
        let field = &octets[CALL_FIELD * k..CALL_FIELD * k + CALL_FIELD];
        let Some(call) = call_in(field) else {
            return None;
        };
        calls.push(call);
    }
    Some(calls)
}

/// What stands past the repeaters that a body begins with.
pub(crate) fn after_repeaters(body: &[u8]) -> &[u8]
    ensures { result.now ≡ after_repeaters body.now }
{
    if body.is_empty() {
        return body;
    }
    let octets = &body[1..];
    let len = CALL_FIELD * body[0] as usize;
    if octets.len() < len {
        return &octets[octets.len()..];
    }
    &octets[len..]
}
