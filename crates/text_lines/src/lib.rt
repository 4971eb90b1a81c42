//! The lines of a text and the words of a line, for every text that the bench reads: jobs, reports, rules, actions
//! and the lines of a session; and why a text was not written. LF ends a line, and spaces alone part words (own
//! choice).
//!
//! It may know: no other crate. Its tests: `mil_tests`. Its wrong bodies: `edits/`.
#![tactic(auto)]

mod fault;
mod lines;
mod parting;
mod words;

pub use fault::WriteFault;
pub use lines::{next_line, split_line, without_end};
pub use words::{Words, from_word, is_comment, meaning, next_word, split_word};
