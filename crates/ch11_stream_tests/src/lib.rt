//! Tests of `ch11_stream` against the reading of all bytes by `ch11_reader`, and of what is made of packets as they
//! come: `ch11_check`, `bench_watch`, and what `bench_clock`, `bench_decode`, `bench_draw`, `bench_dump`,
//! `bench_export`, `bench_judge`, `bench_select` and `bench_stat` say of them.
//!
//! It may know: the public calls of the crates that it tests and of those below them, and `test_values`. It is
//! tests alone, and has no wrong bodies.
#![tactic(auto)]

#[cfg(test)]
mod tests;
