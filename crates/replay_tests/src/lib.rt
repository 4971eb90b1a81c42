//! Tests of `replay`, the debugger of recordings, against worked values.
//!
//! It may know: the public calls of the crates that it tests and of those below them. It is tests alone, and has no
//! wrong bodies.
#![tactic(auto)]

#[cfg(test)]
mod tests;
