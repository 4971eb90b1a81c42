//! What the commands of `bench` share: the tables of their options, the choice of messages, recordings that are read
//! pass by pass, how their messages are written or shown in a file, files that take their place once they are whole,
//! and where they print; it passes on their requests.
//!
//! It may know: words, requests, files, the packets of a stream with `ch11_check`, times, watched files, rules,
//! dictionaries of signals, selections, words of a text. It has no tests: each command is tried by `.ci/commands`,
//! and its faults by `.ci/faults`. It has no wrong bodies.
#![tactic(auto)]

pub mod context;
pub mod dictionaries;
pub mod extracting;
pub mod hosts;
pub mod looking;
pub mod opening;
pub mod options;
pub mod recordings;
pub mod replacing;
pub mod selecting;
pub mod showing;
pub mod streams;
pub mod terminals;
pub mod writing;

pub use bench_requests as requests;
