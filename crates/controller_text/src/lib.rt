//! What the host of a bus controller asks for, as text (own choice): read and printed.
//!
//! It may know: words, messages, host actions, the text of scripts, numbers and words of a text, what the host of a
//! controller asks for. Its tests: `frame_tests`. Its wrong bodies: `edits/`.
#![tactic(auto)]

mod destinations;
mod printing;
mod reading;

pub use printing::{ControlText, DestinationText, reads_back};
pub use reading::read_control;
