//! The debugger of recordings: jobs and the report of a run played again, place by place of the recording; the state at
//! a message, by checkpoints and the controllers' `save` and `restore`.
//!
//! It may know: words, messages, what the host of a controller asks for, gaps and planned faults, the bus, the monitor,
//! trees, the assembler, the controller, jobs, headers, bodies, the builder, the reader, recordings, reports, what runs
//! share. Its tests: `replay_tests`. Its wrong bodies: `edits/`.
#![tactic(auto)]

mod checkpoints;
mod comparing;
mod conditions;
mod error;
mod finding;
mod laws;
mod opening;
mod playing;
mod replaying;
mod standings;
mod timeline;
mod tracks;

pub use error::ReplayError;
pub use laws::{difference_excludes_accord, placed_actions_suffice};
pub use replaying::Replay;
