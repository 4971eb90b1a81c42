//! The commands `bench step`, `bench one`, `bench assemble` and `bench explain`: a recording walked through, one
//! message tried, a script made into an image, and what codes mean.
//!
//! It may know: what commands share, files, jobs, `ch11_check`, reports, `bench_step`, `bench_one`, `bench_assemble`,
//! `bench_explain` and `bench_reasons`. It has no tests: each command is tried by `.ci/commands`, and its faults by
//! `.ci/faults`. It has no wrong bodies.
#![tactic(auto)]

pub mod assembling;
pub mod explaining;
pub mod one_message;
pub mod stepping;
