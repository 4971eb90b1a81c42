//! Mailboxes: hosts post actions on a channel while its thread runs the channel's job.
//!
//! It may know: placed actions, jobs, the trunk. Its tests: `run_tests`. Its wrong bodies: `edits/`.
#![tactic(auto)]

mod error;
mod mailbox;

pub use error::{MailError, PostError};
pub use mailbox::{Inbox, Mailbox, Post, Poster};
