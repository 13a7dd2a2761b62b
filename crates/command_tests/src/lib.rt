//! The tests of the commands and of what they stand on: octet lists and streams, WAV files, the words of a command
//! line, the forms of frames and samples, and `decode`, `encode`, `show`, `loop` and `bench`, each as a call over
//! memory. Wanted values come from outside: files as Python's `wave` and sox write them, the hashes that the authors of
//! FNV-1a publish, signals whose sizes and hashes were computed apart from the program, and frames and lines written by
//! hand from AX.25 2.2. The tests of whole runs are those of `tnc_main`.
//!
//! `base` tests `tnc_base`, `wav` tests `wav_file`, `loop_back` tests `tnc_loop`, and `words`, for one, tests
//! `tnc_words`.
#![tactic(auto)]

#[cfg(test)]
mod tests;
