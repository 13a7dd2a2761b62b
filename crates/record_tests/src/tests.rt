//! Tests of the recorder, each in a file of its own.

mod recorder;
mod recording;
mod wave;
