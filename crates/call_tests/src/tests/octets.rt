//! The messages of a call between N7LEM and NJ7P, octet by octet: a header of 36 octets, and a body.

/// The own call is registered.
pub(super) const REGISTER: &[u8] =
    b"\0\0\0\0X\0\0\0N7LEM\0\0\0\0\0\0\0\0\0\0\0\0\0\0\0\0\0\0\0\0\0\0\0";

/// The remote station is called.
pub(super) const CALL: &[u8] = b"\0\0\0\0C\0\xf0\0N7LEM\0\0\0\0\0NJ7P\0\0\0\0\0\0\0\0\0\0\0\0\0\0";

/// It is called by way of two repeaters.
pub(super) const CALL_VIA: &[u8] =
    b"\0\0\0\0v\0\xf0\0N7LEM\0\0\0\0\0NJ7P\0\0\0\0\0\0\x15\0\0\0\0\0\0\0\x02RELAY\0\0\0\0\0WIDE-15\0\0\0";

/// The text `abc`.
pub(super) const TEXT: &[u8] =
    b"\0\0\0\0D\0\xf0\0N7LEM\0\0\0\0\0NJ7P\0\0\0\0\0\0\x03\0\0\0\0\0\0\0abc";

/// The caller disconnects.
pub(super) const LEAVE: &[u8] = b"\0\0\0\0d\0\0\0N7LEM\0\0\0\0\0NJ7P\0\0\0\0\0\0\0\0\0\0\0\0\0\0";

/// The host has registered the call.
pub(super) const REGISTERED: &[u8] =
    b"\0\0\0\0X\0\0\0N7LEM\0\0\0\0\0\0\0\0\0\0\0\0\0\0\0\x01\0\0\0\0\0\0\0\x01";

/// The host does not register the call.
pub(super) const NOT_REGISTERED: &[u8] =
    b"\0\0\0\0X\0\0\0N7LEM\0\0\0\0\0\0\0\0\0\0\0\0\0\0\0\x01\0\0\0\0\0\0\0\0";

/// The stations are connected.
pub(super) const CONNECTED: &[u8] =
    b"\0\0\0\0C\0\0\0NJ7P\0\0\0\0\0\0N7LEM\0\0\0\0\0 \0\0\0\0\0\0\0*** CONNECTED With Station NJ7P\r";

/// Another station says something.
pub(super) const OTHER_SAYS: &[u8] =
    b"\0\0\0\0D\0\xf0\0N0CALL\0\0\0\0N7LEM\0\0\0\0\0\x02\0\0\0\0\0\0\0no";

/// The remote station says `hi`.
pub(super) const SAYS_HI: &[u8] =
    b"\0\0\0\0D\0\xf0\0NJ7P\0\0\0\0\0\0N7LEM\0\0\0\0\0\x02\0\0\0\0\0\0\0hi";

/// The connection ended, or could not be made.
pub(super) const ENDED: &[u8] =
    b"\0\0\0\0d\0\0\0NJ7P\0\0\0\0\0\0N7LEM\0\0\0\0\0#\0\0\0\0\0\0\0*** DISCONNECTED From Station NJ7P\r";

/// A header that tells a body of 4097 octets.
pub(super) const TOO_LONG: &[u8] =
    b"\0\0\0\0D\0\0\0NJ7P\0\0\0\0\0\0N7LEM\0\0\0\0\0\x01\x10\0\0\0\0\0\0";
