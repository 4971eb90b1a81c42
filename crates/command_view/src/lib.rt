//! The command `bench view`: the messages of a recording as one page for a browser.
//!
//! It may know: what commands share, files, names of channels, and `bench_view`. It has no tests: the command is tried
//! by `.ci/commands` and `.ci/view`, and its faults by `.ci/faults`. It has no wrong bodies.
#![tactic(auto)]

pub mod viewing;
