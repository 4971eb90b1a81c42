//! The command `bench check`: a job tried without a recording, message by message, and what is probably a mistake in
//! it, such as a planned fault that meets nothing.
//!
//! It may know: words, mode codes, status bits, messages, host actions, what the host of a controller asks for, as
//! values and as text, gaps and planned faults, moments, the bus, the monitor, scripts from their text to the loader,
//! the controller, jobs, bodies, layouts, dictionaries of signals and their values, selections, words of a text. Its
//! tests: `command_tests`. Its wrong bodies: `edits/`.
#![tactic(auto)]

mod calls;
mod carried;
mod checked;
mod filling;
mod findings;
mod fitting;
mod frames;
mod meeting;
mod messages;
mod mistake_lines;
mod mistakes;
mod odd_lines;
mod oddities;
mod origins;
mod planned;
mod scripts;
mod signals;
mod tracing;
mod trying;

pub use calls::Calls;
pub use checked::{Checked, Way, check_job, mistakes_in};
pub use filling::Filled;
pub use findings::{Findings, print_findings, print_mistakes};
pub use fitting::{Tight, tight_frames};
pub use frames::Overrun;
pub use meeting::meets;
pub use messages::Bits;
pub use mistakes::{Mistake, mistakes_of};
pub use oddities::Oddities;
pub use origins::Origins;
pub use scripts::tight_frames_in;
pub use trying::try_job;
