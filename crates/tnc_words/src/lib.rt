//! The command line of the program: the words after its name, read once as a value with a type for each
//! command, so that no other part looks at strings. Each command is a command of `clap`, an option is
//! `--name value` or `--name=value`, and a number is decimal digits. What is promised: the command is
//! exactly the one that the words ask for by the function of words that `clap` stands for, and words are
//! refused exactly when they ask for none.
#![tactic(auto)]

mod bench_words;
mod call_words;
mod channel_words;
mod command;
mod decode_words;
mod encode_words;
mod fault;
mod forms;
mod help_words;
mod laws;
mod link_words;
mod loop_words;
mod modem_words;
mod number;
mod options;
mod parsing;
mod rate_words;
mod reading;
mod record_words;
mod serve_words;
mod show_words;
mod stations;
mod texts;
mod topic;

pub use command::{
    AudioForm, BenchOptions, CallOptions, ChannelOptions, CheckOctets, Command, Dcd, DecodeWords,
    EncodeWords, FrameForm, LoopWords, Modem, PttOptions, Receiving, RecordOptions, SampleRate,
    ServeOptions, ShowWords, StationModem,
};
pub use fault::WordsFault;
pub use laws::one_command;
pub use reading::read_words;
pub use texts::{help_text, version_line};
pub use topic::Topic;
