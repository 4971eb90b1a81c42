//! Tests of files of Chapter 11 against worked bytes: `ch11_header`, `ch11_f1`, `ch11_builder`, `ch11_recording`,
//! `ch11_reader`, `ch11_writer`, `bench_dump` and `bench_clock`. Sinks for `ch11_writer` take all, stop, or fail
//! now and then.
//!
//! It may know: the public calls of the crates that it tests and of those below them, and `test_values`. It is
//! tests alone, and has no wrong bodies.
#![tactic(auto)]

#[cfg(test)]
mod tests;
