//! Tests of `bench_live` against worked values: gates that wait, and messages that find no room, as functions; lines
//! that are read and posted, what is told of the others, paces and messages that are shown, as transcripts
//! (`transcripts/`).
//!
//! It may know: the public calls of the crates that it tests and of those below them. It is tests alone, and has no
//! wrong bodies.
#![tactic(auto)]

#[cfg(test)]
mod tests;
