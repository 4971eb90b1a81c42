//! The lines behind a fault of a command: why a text is refused and where, what a file is that stands in the place of
//! another, and what to do.
//!
//! It may know: what commands share, host actions, gaps and planned faults, the text of scripts, jobs, the reader,
//! reports, rules, dictionaries of signals, files, words of a text, what runs share, `bench_one`, `bench_assemble`,
//! `bench_step`, `bench_explain`, `bench_reasons` and `bench_difference`. It has no tests: the lines are tried by
//! `.ci/faults`. It has no wrong bodies.
#![tactic(auto)]

mod damaged;
mod differing;
mod explaining;
mod left;
mod misplaced;
mod named;
mod pointing;
mod reasoning;
mod refusing;

pub use explaining::explain_fault;
pub use named::Named;
