//! Tests of live stations, each in a file of its own.

mod bench_runs;
mod live;
