//! The laws. Each is the contract of a function whose body only calls on the laws that it rests on.
ghost use Rattle.call_laws.specs.FirstPart.{FirstPartIsRead};
ghost use Rattle.call_laws.specs.PrintsGiven.{CallLaw};
ghost use Rattle.call_laws.specs.PrintsSeen.{CallSeenLaw};
ghost use Rattle.call_laws.specs.PrintsTold.{CallToldLaw};
ghost use Rattle.call_laws.specs.SetUpsTold.{SetUpsAreTold};

use station_laws::{ends_follow, set_ups_law, stations_law};

/// The messages that are read of a first part of written messages are a first part of these.
pub fn first_part_is_read()
    ensures { FirstPartIsRead }
{}

/// The packets that the set-ups of a link's end got, in the sense of `station_laws`, are those that the link told of at
/// its station: as many set-ups as the link told to be open, each with the data told of until the next one. Nothing is
/// asked of what hosts give.
pub fn set_ups_are_told()
    ensures { SetUpsAreTold }
{
    ends_follow();
}

/// In any joint run of two stations, whatever is heard: what a call prints that one of the stations is the host of is
/// nothing, or a first part of the data that the link of the call told of in one set-up. The client has taken a first
/// part of the octets that its station has for it, and calls the other station by these calls, as `agwpe_client`
/// defines a call. Its connection speaks AGWPE and does not leave in that run, and no piece for it has 2^32 octets.
pub fn a_call_prints_what_was_told()
    ensures { CallToldLaw }
{}

/// The law of a call whose host is a live station, as [`a_call_prints_what_was_told`] speaks of it, in any joint run of
/// two stations of which [`stations_law`] speaks: what is heard of the link of the call was sent before, and is heard
/// in order and once, the windows fit, and the channel of that link is quiet. Then what the call prints, whether it is
/// done, goes on or was broken off, is nothing, or a first part of the octets that the partner's host gave in one
/// set-up of the link, in order and nothing left out. That set-up is the origin of the one in which the client's end
/// got them.
pub fn a_call_prints_what_was_given()
    ensures { CallLaw }
{
    set_ups_are_told();
    stations_law();
}

/// [`a_call_prints_what_was_given`] in what is seen at the other station, if hosts give packets only while the link is
/// up and takes them: that set-up, the origin, is one of those that are seen there, and the packets given in it are
/// those that the events of the link there brought while it ran.
pub fn a_call_prints_what_was_seen_given()
    ensures { CallSeenLaw }
{
    a_call_prints_what_was_given();
    set_ups_law();
}
