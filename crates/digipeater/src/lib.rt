//! A digipeater repeats a frame whose path names it next (AX.25 2.2 section 3.12). It sets the H bit of
//! its own field in place, and leaves every other octet as it was. A frame whose next repeater is another
//! station, or that has no repeater left, or that begins with no path, is not repeated.
#![tactic(auto)]

mod repeater;

pub use repeater::repeat;
