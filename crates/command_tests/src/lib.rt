//! Tests of figures and commands, most of them *transcripts* (`transcripts/`): commands and, to the byte, what they
//! print, which `.ci/transcripts` plays with the program. So it tries `bench_one`, `bench_assemble`, `bench_check`,
//! `bench_stat`, `bench_export`, `bench_draw`, `bench_judge`, `bench_complete`, `bench_cut`, `bench_compare`,
//! `bench_reproduce`, `bench_decode`, `bench_explain`, `bench_reasons`, `bench_step`, `judge_rules`, `bench_select`,
//! `signal_dictionary`, `bench_signals` and `bench_view`, and by what these print `ch11_layout`, `bench_places`,
//! `bench_state` and `signal_values`. The functions here are what no command shows: readers and writers that fail,
//! refused memory, calls that no command makes.
//!
//! It may know: the public calls of the crates that it tests and of those below them, and `test_values`. It is
//! tests alone, and has no wrong bodies.
#![tactic(auto)]

#[cfg(test)]
mod looks;
#[cfg(test)]
mod steps;
#[cfg(test)]
mod texts;
