//! What the host of a remote terminal sets: its actions, as values and as text.
//!
//! It may know: words, numbers and words of a text. Its tests: `mil_tests`. Its wrong bodies: `edits/`.
#![tactic(auto)]

mod actions;
mod data_words;
mod host_values;
mod names;
mod printing;
mod reading;
mod values;

pub use actions::Action;
pub use data_words::{DataWord, DataWords};
pub use host_values::{ModeMark, ReplyGap, WordRamp};
pub use reading::{BadAction, number_within, read_action};
pub use values::{Mark, ResponseGap, TransmitWords};
