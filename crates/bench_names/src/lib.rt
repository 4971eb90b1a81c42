//! Names of channels: those that the setup record in front of a recording gives them, and the text of one that
//! describes channels (IRIG 106-17 Chapter 9, telemetry attributes transfer standard; IRIG 106-17 Chapter 11, computer
//! generated data, Format 1).
//!
//! It may know: headers, numbers of a text. Its tests: `command_tests`. Its wrong bodies: `edits/`.
#![tactic(auto)]

mod attributes;
mod describing;
mod names;
mod records;

pub use describing::{Described, Holds, setup_text};
pub use names::ChannelNames;
