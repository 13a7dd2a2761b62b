//! Tests of the commands, each in a file of its own.

mod assertions;
mod base;
mod bench;
mod decode;
mod encode;
mod example;
mod forms;
mod loop_back;
mod show;
mod wav;
mod words;
