//! The command `bench explain`: what a fault code means, and what to do.
//!
//! It may know: no other crate. Its tests: `command_tests`. Its wrong bodies: `edits/`.
#![tactic(auto)]

mod buses;
mod dictionaries;
mod explanation;
mod explanations;
mod jobs;
mod printing;
mod recordings;
mod rules;
mod runs;
mod scripts;

pub use explanation::Explanation;
pub use explanations::{explain, groups};
pub use printing::{print_explanation, print_list};
