//! A run that a person or a shell drives: lines of actions posted while it goes on, bus time at a pace of real time,
//! and messages that are shown as they are recorded.
//!
//! It may know: words, gaps and planned faults, host actions, what the host of a controller asks for, as text, placed
//! actions, jobs, bodies, layouts, the writer, the trunk, reports, what runs share, mailboxes, runs, the library of
//! `bench run`, decoded messages, numbers and words of a text. Its tests: `live_tests`. Its wrong bodies: `edits/`.
#![tactic(auto)]

mod desk;
mod gates;
mod line;
mod live;
mod pace;
mod posting;
mod show;
mod telling;

pub use desk::{Desk, Hand, open_desk};
pub use gates::SessionGate;
pub use line::{LivePost, read_post};
pub use live::{LiveRun, Pacing, start_host};
pub use pace::Pace;
pub use posting::{PostFault, Told, next_fault};
pub use show::{Show, Showing, show_all};
