//! The live side of a station: the sound that comes in, and the turns that join it to the hosts' side.
//!
//! A pump reads the sound and publishes its samples in a ring. Beside it the station's turns take the samples from
//! there, and in each turn serve the hosts. The threads are after a trait, and the line of the transmitter's key is
//! after another, so that all of this also runs in memory. What is promised: what the pump publishes is the samples of
//! what it read; the key is turned on before the first sample of a transmission, and is released at every end.
#![tactic(auto)]

mod inlet;
mod key_lines;
mod laws;
mod line_texts;
mod live;
mod looping;
mod mem_live;
mod meter;
mod monitor;
mod pump_run;
mod pumping;
mod real_live;
mod releasing;
mod samples_out;
mod serve_words;
mod serving;
mod sound;
mod spawner;
mod starting;
mod turning;
mod writing;

pub use inlet::Inlet;
pub use laws::{
    a_tick_without_a_key_is_plain, a_transmission_begins_keyed, steps_are_heard,
    the_key_is_kept_within_its_limit, the_key_is_released_at_every_end,
};
pub use line_texts::text_of_lines;
pub use live::Live;
pub use looping::{LoopEnd, station_loop};
pub use mem_live::{MemLive, MemSpawner};
pub use meter::Meter;
pub use pump_run::pump_beside;
pub use pumping::{PumpEnd, Pumped, pump, pump_inlet};
pub use real_live::{RealLive, RealSpawner};
pub use serve_words::{KeyWords, ServeWords};
pub use serving::{ServeEnd, serve};
pub use spawner::{Order, Spawner, beside};
pub use starting::Start;
pub use writing::put;
