//! What commands print as JSON lines: each line of a dump or of verdicts, and each row of a table, as an object with
//! the names of its values as keys.
//!
//! It may know: words of a text; the kit's `serde_json`. Its tests: `command_tests`. It has no wrong bodies: no
//! contract says what is printed.
#![tactic(auto)]

mod json_lines;
mod objects;
mod rows;
mod values;

pub use json_lines::{JsonLines, JsonSource};
pub use objects::Object;
