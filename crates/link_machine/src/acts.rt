//! What a link does in one event.
use ax25_frames::{Frame, Modulus};
use selective_reject::Packet;
use std::marker::Model;

/// What a link tells the layer above.
#[derive(Debug, Drop)]
pub enum Told {
    /// A set-up begins.
    Opened {
        /// True if this side called.
        ours: bool,
    },
    /// The next packet of the other side.
    Given {
        /// The packet.
        packet: Packet,
    },
    /// A set-up, or the wish for one, has ended.
    Ended {
        /// Why.
        why: Why,
    },
}

/// Why a set-up ended.
#[derive(Clone, Copy, Debug, PartialEq, Eq)]
pub enum Why {
    /// This side asked for it.
    Asked,
    /// The other side ended it.
    Peer,
    /// The other side began anew, or an error of the protocol made this side call again.
    Reset,
    /// The other side refused the call.
    Refused,
    /// The other side did not answer.
    Failed,
}

/// A frame that a link sends, and the modulus in which it is written: that of the link when it sends it. The link may
/// have another one after the same event, since a link that ends falls back to 8.
#[derive(Debug, Drop)]
pub struct SentFrame {
    /// The frame.
    pub frame: Frame,
    /// The modulus of its numbers.
    pub modulus: Modulus,
}

/// What a link does in one event: the frames that it sends and what it tells the layer above, each in order. Contracts
/// see both as lists.
#[derive(Debug, Drop)]
pub struct Acts {
    /// The frames, to be sent in this order.
    pub frames: Vec<SentFrame>,
    /// What the layer above is told, in this order.
    pub told: Vec<Told>,
}

impl Model for Acts {
    ghost use Rattle.link_machine.specs.Done.{Done};

    ghost Value = { Done };

    ghost view = { λ acts. record { frames = acts.frames.items; told = acts.told.items } };
}
