//! The command `bench step`: a debugger that walks through a recording, driven by lines of text.
//!
//! It may know: words, the bus, the controller, the conditions of scripts, jobs, the reader, reports, the debugger,
//! rules, selections, places, decoded messages, what terminals hold, numbers and words of a text. Its tests:
//! `command_tests`. Its wrong bodies: `edits/`.
#![tactic(auto)]

mod commands;
mod console;
mod decoding;
mod fault;
mod help;
mod laws;
mod manners;
mod moves;
mod opening;
mod replies;
mod session;
mod sessions;
mod shown;

pub use commands::Command;
pub use console::Prompted;
pub use fault::StepFault;
pub use laws::{messages_have_text, own_faults_are_shown, replies_are_determined};
pub use manners::Manner;
pub use replies::Reply;
pub use sessions::step;
pub use shown::jobs_under;
