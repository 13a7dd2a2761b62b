//! The shortest frame.

/// SABM with P from N7LEM to NJ7P, 15 octets.
pub(crate) const SHORTEST: &[u8; 15] =
    b"\x9c\x94\x6e\xa0\x40\x40\xe0\x9c\x6e\x98\x8a\x9a\x40\x61\x3f";
