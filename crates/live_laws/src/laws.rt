//! The laws. Each is the contract of a function whose body only calls on the laws that it rests on.
ghost use Rattle.live_laws.specs.BodiesGiven.{BodiesAreGiven};
ghost use Rattle.live_laws.specs.LiveLaw.{LiveLaw};
ghost use Rattle.live_laws.specs.Orders.{EachOrderStands};
ghost use Rattle.live_laws.specs.RunLaws.{StepsFollow, TakesWhatIsSaid, TwoRunsAreJoint};

use call_laws::set_ups_are_told;
use station_laws::{ends_follow, stations_law};

/// Each step of a live run begins in the state that the one before it left, the first in a new station.
pub fn steps_follow()
    ensures { StepsFollow }
{}

/// The steps of two live runs, in any order that keeps each one's own, are a joint run of two new stations.
pub fn two_runs_are_joint()
    ensures { TwoRunsAreJoint }
{}

/// The steps of two live runs can stand in every order that keeps each one's own.
pub fn each_order_stands()
    ensures { EachOrderStands }
{}

/// What a connection took in a live run is a first part of what the station said to it, piece for piece,
/// from when it joined until it left or was shut. A piece that did not fit its queue is none of it, nor is any after it.
pub fn takes_what_is_said()
    ensures { TakesWhatIsSaid }
{}

/// What a link's end was given in each of its set-ups is, in octets, what the link took of the bodies of `D` messages that
/// hosts gave it there, in the order in which they sent them. Of each body it takes a first part, and all of it if it
/// refuses no packet of it.
pub fn bodies_are_given()
    ensures { BodiesAreGiven }
{
    ends_follow();
}

/// The law of two live runs, however they ended. Take the steps of both stations in one order that keeps each one's own. If
/// each frame of the link of two calls that one hears was queued before by a link of the other, and they are heard in order
/// and once, if each SABM, SABME and DISC of it finds a quiet channel and the windows fit, then at either side, set-up by
/// set-up, what a connection of the AGWPE port took of `D` messages of the link is a first part of what the partner's hosts
/// gave the link by `D` messages in one set-up, its origin, and origins rise.
pub fn two_live_runs()
    ensures { LiveLaw }
{
    set_ups_are_told();
    stations_law();
    bodies_are_given();
}
