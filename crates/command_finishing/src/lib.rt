//! What a run makes of its recording once it is whole, and what commands of their own make of any: the complete file,
//! the verdicts of rules, and that there are mistakes in a job.
//!
//! It may know: what commands share, the reader, watched files, names of channels, rules, dictionaries of signals,
//! words of a text, `bench_complete`, `bench_judge` and `signal_judge`. It has no tests: the commands are tried by
//! `.ci/commands`, and their faults by `.ci/faults`. It has no wrong bodies.
#![tactic(auto)]

pub mod completing;
pub mod mistakes;
pub mod signal_verdicts;
pub mod verdicts;
