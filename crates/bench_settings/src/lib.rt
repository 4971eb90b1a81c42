//! What all runs share: their settings, which jobs may be run with these, placed actions in the order in which messages
//! meet them, and what a report says of a channel.
//!
//! It may know: words, the bus, recorded messages, the controller, jobs, the builder, the reader, recordings, reports.
//! Its tests: `bench_tests`. Its wrong bodies: `edits/`.
#![tactic(auto)]

mod error;
mod judging;
mod parts;
mod placing;
mod settings;

pub use error::WorldError;
pub use judging::judge;
pub use parts::channel_report;
pub use placing::{add_action, is_for_place, ordered_actions};
pub use settings::{DEFAULT_LIMIT, DEFAULT_QUEUE, DEFAULT_VERSION, MOST_POSTS, Settings};
