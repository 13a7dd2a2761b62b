//! How long a frame may be.

ghost use Rattle.std.specs.Prelude.{◌≡◌};
ghost use Rattle.hdlc_framer.specs.FrameLength.{has_frame_length};

/// The fewest octets of a frame, without its check sequence: two addresses and a control octet (AX.25 2.2 section 3).
pub const LEAST_FRAME_LENGTH: usize = 15;

/// The most octets of a frame, without its check sequence.
pub const MOST_FRAME_LENGTH: usize = 1024;

/// Whether octets are as long as a frame without its check sequence.
pub fn has_frame_length(octets: &[u8]) -> bool
    ensures { result ≡ has_frame_length octets.now }
{
    LEAST_FRAME_LENGTH <= octets.len() && octets.len() <= MOST_FRAME_LENGTH
}
