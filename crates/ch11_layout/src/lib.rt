//! A recorded message, decoded once for all that look at it: when it began, which of its words are commands, status
//! words and data words, its form, its replies and its errors.
//!
//! It may know: words, headers, bodies. It has no tests of its own: `command_tests` tries it by the figures, rows,
//! pictures and verdicts that rest on it. Its wrong bodies: `edits/`.
#![tactic(auto)]

pub mod block;
mod forms;
mod layouts;
mod stamps;
mod view;

pub use forms::RecordedForm;
pub use layouts::{Layout, Role, is_set};
pub use stamps::StampKind;
pub use view::{Reply, View};
