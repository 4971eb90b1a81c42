//! Tests of the crates whose names begin with `frame_`, of `job_moments`, `bc_machine` and `job_file`. They try
//! scripts, their trees, their images, the controllers that run them, the jobs that hold them, and when something of a
//! job is due. The laws of `frame_grammar` need none.
//!
//! It may know: the public calls of the crates that it tests and of those below them. It is tests alone, and has no
//! wrong bodies.
#![tactic(auto)]

#[cfg(test)]
mod tests;
