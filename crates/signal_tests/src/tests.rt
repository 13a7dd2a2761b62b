//! Tests of frames as signals, each in a file of its own.

mod assertions;
mod bits;
mod carrier;
mod framer;
mod hf_tones;
mod letters;
mod merger;
mod modulator;
mod rates;
mod resampling;
mod ring;
mod shortest_frame;
mod slicers;
mod tones;
mod tracking;
