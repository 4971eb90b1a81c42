//! The commands `bench cut` and `bench compare`, for recordings as material: some of the messages of one as a
//! recording of their own, and two of them compared.
//!
//! It may know: what commands share, files, times, the packets of a stream, selections, words, layouts, the dump, words
//! of a text, `bench_decode`, `bench_json`, `bench_cut` and `bench_compare`. It has no tests: each command is tried by
//! `.ci/commands`, and its faults by `.ci/faults`. It has no wrong bodies.
#![tactic(auto)]

pub mod comparing;
pub mod cutting;
mod showing;
mod telling;
