//! What stands between the words of a line, the faults that are planned for messages, and what they make of the
//! words that one sender sends in a row.
//!
//! It may know: words, histories. Its tests: `mil_tests`. Its wrong bodies: `edits/`.
#![tactic(auto)]

mod error;
mod faults;
mod gaps;
mod line_words;
mod on_line;
mod plans;
mod rising;

pub use error::LineError;
pub use faults::Fault;
pub use gaps::Gap;
pub use line_words::LineWord;
pub use on_line::{MOST_SENT, altered, reply_gap};
pub use plans::Plan;
