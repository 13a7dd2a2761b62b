//! The laws. Each is the contract of a function that does nothing.
ghost use Rattle.station_laws.specs.StationsLaw.{FollowingLaw, StationsLaw};
ghost use Rattle.station_laws.specs.AnswersOverRuns.{AnswersOverRuns};
ghost use Rattle.station_laws.specs.CallerLaw.{CallerLaw};
ghost use Rattle.station_laws.specs.FramesTold.{AnswersAreOfSent, AskersStandBeside};
ghost use Rattle.station_laws.specs.HostsAsk.{HostsAskNothing};
ghost use Rattle.station_laws.specs.LinksTell.{LinksTellInOne};
ghost use Rattle.station_laws.specs.MatchedLaw.{MatchedInOrder, MatchedLaw};
ghost use Rattle.station_laws.specs.OneSpelling.{CallTextsAgree, WrittenFramesAgree};
ghost use Rattle.station_laws.specs.OneFrameEnds.{OneFrameEnds};
ghost use Rattle.station_laws.specs.OneTurn.{OneTurn};
ghost use Rattle.station_laws.specs.OwnRoom.{OwnRoom};
ghost use Rattle.station_laws.specs.Owners.{OwnersAreTold};
ghost use Rattle.station_laws.specs.ProgramsTold.{ProgramsAreTold};
ghost use Rattle.station_laws.specs.RunsTell.{RunsTellInOne};
ghost use Rattle.station_laws.specs.SetUpsSeen.{SetUpsLaw};

/// The law on any two stations. A joint run is a list of steps, each of one of two stations that began new: what comes
/// from a host, a frame that is heard, or a tick. It speaks of the link of two calls. A frame of that link is one
/// between its calls, by its address field, that is an event of a link where it is heard; what else is heard does not
/// matter. The frames of the link are heard in order if, in each direction, a list of pairs that rises in both numbers
/// joins each one that was heard with a frame that a link of the other station queued before, equal but for the H bits
/// of repeaters. Then the link keeps the order, if the windows of its ends fit each other, each SABM, SABME and DISC of
/// it enters a quiet channel, also one that finds the transmit queue full, and an idle end hears SABM or SABME only
/// while none of its own is in flight. In each set-up, what one side was given by the other is, packet for packet, a
/// prefix of what the other's host gave in one set-up of its own, its origin: the one that the first I frame belonged
/// to that was accepted. Origins rise strictly. Both ends follow the links of the stations: each event finds the
/// machine of the station's link, and is told what that tells its owner.
pub fn stations_law()
    ensures { StationsLaw }
{}

/// The two ends of a link follow the links of the stations, whether the channel is quiet or not, over every joint run
/// in which the frames of the link are heard in order: each event finds an end with the machine of its station's link
/// and tells it what that link tells, and after the run the machines are those of the links, or idle if there is none.
pub fn ends_follow()
    ensures { FollowingLaw }
{}

/// What a link tells in an event goes to its owner, one message each and in order, and to nobody else. So what an end
/// got in [`stations_law`] are the data messages that the owner of the station's link was sent.
pub fn owners_are_told()
    ensures { OwnersAreTold }
{}

/// In a run in which each heard frame of the link of two calls is matched with one in flight that has the same octets,
/// the matches are the list of pairs that [`stations_law`] asks for: what the link hears at each station was sent
/// before, and is heard in order and once.
pub fn matched_in_order()
    ensures { MatchedInOrder }
{}

/// The law on two stations of which one alone calls, over a run whose heard frames are matched as they are heard. What
/// is in flight is counted as one can know it: a frame of a link from the moment at which it is queued until it is
/// heard, a later one of its direction is heard, or it has passed. It speaks of the link of two calls, and counts its
/// frames alone. If each that is heard is matched with one in flight that has the same octets, each SABM, SABME and
/// DISC that joins a transmit queue finds none of its station in flight, and no UA or DM that was sent on hearing one
/// in flight to it, and the windows fit, then the link keeps the order of [`stations_law`], if hosts of A alone connect
/// and disconnect it and, while it is not up at A, none of its SABM, SABME and DISC finds the transmit queue full
/// there.
pub fn matched_law()
    ensures { MatchedLaw }
{}

/// The set-ups of which the laws speak are those that are seen at the stations. One begins when the link tells that it
/// is open; it has the packets that were given in it, and those that the link told of, in order. This holds of each
/// joint run in which the frames of the link are heard in order, if hosts give packets only while the link is up and
/// takes them.
pub fn set_ups_law()
    ensures { SetUpsLaw }
{}

/// In a step in which no host program sends C, v, c or d, and none leaves or is shut for what it sends (a bad length, a
/// request of the web), no event of a link is a connect or a disconnect.
pub fn hosts_ask_nothing()
    ensures { HostsAskNothing }
{}

/// [`matched_law`] in the terms of host programs: no host of B sends C, v, c or d or leaves, and both stations have
/// dropped no frame when the run ends. Then each link keeps the order.
pub fn caller_law()
    ensures { CallerLaw }
{}

/// Each C and D that a host program is sent in a step of a station is told by an event of a link that it owns, in the
/// same order; no message of another act is one.
pub fn programs_are_told()
    ensures { ProgramsAreTold }
{}

/// A connection of KISS that asks to be told when its frames have been sent is told of exactly those that were: in a
/// step it is sent an answer if and only if the step names a frame as sent beside which it stands as the one to be told,
/// and the answer has the two octets by which it knows that frame. No other act sends one.
pub fn answers_are_of_sent()
    ensures { AnswersAreOfSent }
{}

/// In each state of a run no more than four frames of a connection wait that it gave as they stand, and one more of it finds
/// room in the transmit queue exactly if fewer than four of its own wait, if the connection is there. What other
/// connections and the links send does not matter.
pub fn own_room()
    ensures { OwnRoom }
{}

/// In a piece of 17 octets of a connection no more than one frame ends that it gives as it stands: no more than one item of
/// KISS is as long as a frame, and no more than one message of AGWPE ends. So with [`own_room`] a connection whose octets
/// come in such pieces, each while fewer than four frames of its own wait, has none of them dropped.
pub fn one_frame_ends()
    ensures { OneFrameEnds }
{}

/// In each state of a run one stands beside each frame that waits to be sent, or nobody does. A step names the front
/// frame alone, so with [`answers_are_of_sent`] the answers come in the order of sending.
pub fn askers_stand_beside()
    ensures { AskersStandBeside }
{}

/// Over a whole run of a station from its beginning: the answers that a connection of KISS was sent since it joined are
/// exactly those for its frames that asked to be told of, joined the transmit queue and were named as sent, in the order
/// in which it asked. The others of its frames that asked still wait. A connection that has left is told nothing, nor is
/// a later one of its id for the frames of the first.
pub fn answers_over_runs()
    ensures { AnswersOverRuns }
{}

/// What a link tells its owner. A set-up runs from when it is told to be open until it is told to have ended. The
/// set-up of a link that is up runs, and one that runs is of a link that is up or is being released. Data is told of
/// only while one runs.
pub fn links_tell_in_one()
    ensures { LinksTellInOne }
{}

/// What the link of two calls tells at a station in a joint run in which its frames are heard in order: data is told of
/// only while a set-up runs, the set-up of a link that is up runs, and one that runs is of a link that is up or is
/// being released.
pub fn runs_tell_in_one()
    ensures { RunsTellInOne }
{}

/// What a station makes of an input, what it is then and what it gives, depends on its state and on the input alone:
/// the definition of a step describes one turn of each.
pub fn one_turn()
    ensures { OneTurn }
{}

/// The texts that a station reads as a call are the texts of that call (AX.25 2.2 section 3.12), and no other text is.
pub fn call_texts_agree()
    ensures { CallTextsAgree }
{}

/// What is written for a frame (AX.25 2.2 section 3.1) is the octets that a station speaks of, and nothing else is.
pub fn written_frames_agree()
    ensures { WrittenFramesAgree }
{}
