//! The commands `bench judge` and `bench check`: whether a recording is what rules expect, and jobs tried without a
//! recording.
//!
//! It may know: what commands share, files, jobs, the reader, watched files, rules, dictionaries of signals, words of a
//! text, what runs share, `command_finishing`, `bench_json`, `bench_judge`, `signal_judge` and `bench_check`. It has no
//! tests: each command is tried by `.ci/commands`, and its faults by `.ci/faults`. It has no wrong bodies.
#![tactic(auto)]

pub mod checking;
pub mod judging;
pub mod signal_judging;
