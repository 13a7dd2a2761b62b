//! How far a transmission is.

use crate::frame_bits::FrameBits;

/// What is being sent. Bits that are left are counted with the next one.
#[derive(Clone, Copy, Debug)]
pub(crate) enum Stage {
    /// The flags before the first frame.
    Opening { left: u16 },
    /// The frame at the front of the queue.
    Frame { bits: FrameBits },
    /// The flag after the frame at the front of the queue, and whether another frame follows it.
    Following { left: u8, another: bool },
    /// The closing flags after the first of them.
    Closing { left: u16 },
    /// Nothing is left.
    Over,
}
