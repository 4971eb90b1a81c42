//! Tests of the bench that start no thread, against worked values: the steps of `bench_core`, its recording of one
//! channel, and the reports of `bench_report`.
//!
//! It may know: the public calls of the crates that it tests and of those below them, and `test_values`. It is
//! tests alone, and has no wrong bodies.
#![tactic(auto)]

#[cfg(test)]
mod tests;
