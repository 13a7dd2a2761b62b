//! The framer against values from outside, and against a slow program that reads the definitions on whole lists of
//! bits.
mod agreement;
mod carrier;
mod definition;
mod frames;
mod line;
