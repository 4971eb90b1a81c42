//! The commands of `bench`: the command line, what it names, and the exit statuses; each command stands in a crate
//! below, and so do the lines behind a fault.
//!
//! It may know: commands that read, commands that run, what commands share, and `command_remedies`. It has no tests:
//! each command is tried by `.ci/commands`, and its faults by `.ci/faults`. It has no wrong bodies.
#![tactic(auto)]

mod command_line;
mod commands;
mod given_words;
mod naming;

pub use commands::run;
