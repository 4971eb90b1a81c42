//! The commands `bench dump` and `bench stat`: a recording as lines, and its figures.
//!
//! It may know: what commands share, times, names of channels, selections, dictionaries of signals, words of a text,
//! the dump, decoded messages, `bench_json`, `bench_stat` and `bench_signals`. It has no tests: each command is tried
//! by `.ci/commands`, and its faults by `.ci/faults`. It has no wrong bodies.
#![tactic(auto)]

mod decoding;
pub mod dumping;
pub mod statistics;

pub use decoding::Messages;
