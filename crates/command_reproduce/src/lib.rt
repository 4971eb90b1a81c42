//! The command `bench reproduce`: a recorded channel as a job that plays it again, and how much of it comes out the
//! same.
//!
//! It may know: what commands share, files, the packets of a stream, words of a text, `bench_compare` and
//! `bench_reproduce`. It has no tests: the command is tried by `.ci/commands`, and its faults by `.ci/faults`. It has
//! no wrong bodies.
#![tactic(auto)]

mod channels;
pub mod reproducing;
