//! Tests of a station, each in a file of its own.

mod access;
mod agwpe;
mod example;
mod kiss;
mod stations;
