//! Reception at 48,000 samples a second, which sound cards use: a low-pass filter, and of the filtered samples each
//! fifth, from one of the first five on, is a stream of 9600 a second.
//!
//! A [`WideBank`] has a bank of eight lanes for each of the five streams of samples, and a [`WideDecoder`] has the filter
//! before it. What the forty lanes hear is merged by the place where it ends, so each frame comes once, in order. The
//! items of all samples are a definition over their list: it does not matter in which blocks the samples came.
//!
//! A [`WideSensitiveDecoder`] has all lanes of `sensitive_receiver` for the first stream alone.
#![tactic(auto)]

mod laws;
mod sensitive_decoder;
mod sent;
mod stream;
mod streams;
mod wide_bank;
mod wide_decoder;

pub use laws::{
    near_stream_frames, one_list_of_wide_candidates, some_list_of_wide_candidates, streams_by_place,
};
pub use sensitive_decoder::WideSensitiveDecoder;
pub use sent::is_sent_wide;
pub use wide_bank::WideBank;
pub use wide_decoder::WideDecoder;
