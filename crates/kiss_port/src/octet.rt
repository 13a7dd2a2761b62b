//! The octets that frame and escape.

// Ends a piece of the stream.
pub const FEND: u8 = 0xc0;

// Begins an escape.
pub const FESC: u8 = 0xdb;

// Stands for FEND in an escape.
pub const TFEND: u8 = 0xdc;

// Stands for FESC in an escape.
pub const TFESC: u8 = 0xdd;
