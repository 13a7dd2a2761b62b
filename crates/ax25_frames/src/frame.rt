//! What a frame is (AX.25 2.2 sections 3 and 4.3).
use ax25_address::Path;
use tnc_base::Octets;

/// How many sequence numbers the I and S frames of a link count with (AX.25 2.2 section 4.2).
#[derive(Clone, Copy, Debug, PartialEq, Eq)]
pub enum Modulus {
    /// 8: the numbers 0 to 7, and one control octet.
    Eight,
    /// 128: the numbers 0 to 127, and two control octets in I and S frames.
    OneTwentyEight,
}

/// The supervisory frames, S frames for short (AX.25 2.2 section 4.3.2).
#[derive(Clone, Copy, Debug, PartialEq, Eq)]
pub enum S {
    /// RR, receive ready: I frames are taken, and that with number N(R) is awaited next (section 4.3.2.1).
    Rr,
    /// RNR, receive not ready: no I frames are taken for now (section 4.3.2.2).
    Rnr,
    /// REJ, reject: all I frames from number N(R) on are asked for again (section 4.3.2.3).
    Rej,
    /// SREJ, selective reject: the one I frame with number N(R) is asked for again (section 4.3.2.4).
    Srej,
}

/// The unnumbered frames that set up and end a link, and their answers (AX.25 2.2 section 4.3.3).
#[derive(Clone, Copy, Debug, PartialEq, Eq)]
pub enum U {
    /// SABM, set asynchronous balanced mode: asks for a link modulo 8 (section 4.3.3.1).
    Sabm,
    /// SABME, set asynchronous balanced mode extended: asks for a link modulo 128 (section 4.3.3.2).
    Sabme,
    /// DISC, disconnect: asks for the end of the link (section 4.3.3.3).
    Disc,
    /// DM, disconnected mode: there is no link, or none is wanted (section 4.3.3.5).
    Dm,
    /// UA, unnumbered acknowledge: a SABM, SABME or DISC is accepted (section 4.3.3.4).
    Ua,
}

/// The other unnumbered frames that carry information without a PID (AX.25 2.2 section 4.3.3).
#[derive(Clone, Copy, Debug, PartialEq, Eq)]
pub enum W {
    /// FRMR, frame reject: a frame came with a fault that sending it again does not mend (section 4.3.3).
    Frmr,
    /// XID, exchange identification: tells what a station can do, and asks for the same (section 4.3.3.7).
    Xid,
    /// TEST, test: asks to be sent its own information back, or sends it back (section 4.3.3.8).
    Test,
}

/// What a frame says, apart from its path: its control field (AX.25 2.2 section 4.3), and then its PID (section 3.4)
/// and its information if it has them. A frame with a modulus has its sequence numbers below that.
#[derive(Clone, Debug, Drop)]
pub enum Kind {
    /// An I frame: information in sequence (section 4.3.1).
    Info {
        /// N(S), the send sequence number: its own.
        ns: u8,
        /// N(R), the receive sequence number: that of the I frame that is awaited next.
        nr: u8,
        /// P, the poll bit: an answer is asked for.
        poll: bool,
        /// The protocol of the information, as F0 for no layer 3.
        pid: u8,
        /// The information, at most 256 octets (N1).
        octets: Octets,
    },
    /// An S frame: what a receiver says of I frames (section 4.3.2).
    Super {
        /// Which one.
        which: S,
        /// N(R), the receive sequence number, as its kind means it.
        nr: u8,
        /// P or F, the poll bit of a command or the final bit of a response.
        flag: bool,
    },
    /// A frame that sets up or ends a link, or answers one (section 4.3.3).
    Setup {
        /// Which one.
        which: U,
        /// P or F.
        flag: bool,
    },
    /// A UI frame: information outside any link (section 4.3.3.6).
    Ui {
        /// P or F.
        flag: bool,
        /// The protocol of the information, as F0 for no layer 3.
        pid: u8,
        /// The information, at most 937 octets in a frame that is written.
        octets: Octets,
    },
    /// An FRMR, XID or TEST frame (section 4.3.3).
    Other {
        /// Which one.
        which: W,
        /// P or F.
        flag: bool,
        /// The information, at most 937 octets in a frame that is written.
        octets: Octets,
    },
}

/// A frame without its flags and its check sequence (AX.25 2.2 section 3.1).
#[derive(Clone, Debug, Drop)]
pub struct Frame {
    /// From whom it comes, to whom it goes, and by which repeaters (section 3.12).
    pub path: Path,
    /// What it says.
    pub kind: Kind,
}
