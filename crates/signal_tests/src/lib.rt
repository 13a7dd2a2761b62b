//! Tests of the crates between samples and frames. They have a crate of their own, since a crate with tests is proved
//! twice.
//!
//! Expected values come from outside the tested crates: the samples of a sine, correlations, decisions and what is heard
//! of tones, that a second program computed, check values of the frame check sequence of ISO/IEC 3309, and events that a
//! slow program finds by the definitions on whole lists of bits. Cases of the merger and of the ring are worked by hand.
//!
//! `tones` tests `tone_table`, `bits` `nrzi_bits`, `framer` `hdlc_framer`, `modulator` `afsk_modulator`, `slicers`
//! `offset_slicers`, `tracking` `tone_tracking`, `carrier` `tone_carrier`, `resampling` `resampler`, `merger`
//! `frame_merge` and `ring` `sample_ring`.
#![tactic(auto)]

#[cfg(test)]
mod tests;
