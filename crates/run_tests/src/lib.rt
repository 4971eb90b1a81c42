//! Tests of the calls that start threads, against worked values: `run` and `run_live` of `bench_run`, `record_jobs`
//! of `bench_run_command`, and the mailboxes of `bench_mail`. Gates fix the order of the threads where a value
//! depends on it.
//!
//! It may know: the public calls of the crates that it tests and of those below them, `replay` and `test_values`.
//! It is tests alone, and has no wrong bodies.
#![tactic(auto)]

#[cfg(test)]
mod tests;
