//! When something of a job is due (own choice): at a time, or at a message by its commands; and which faults are due at
//! a message.
//!
//! It may know: words, messages, gaps and planned faults, selectors of rules, histories. Its tests: `frame_tests`. Its
//! wrong bodies: `edits/`.
#![tactic(auto)]

mod chunks;
mod counts;
mod groups;
mod met;
mod moments;
mod occasions;
mod placing;
mod planning;
mod quiet;
mod waiting;

pub use met::Met;
pub use moments::Moment;
pub use occasions::{Occasion, Turns};
pub use planning::Occasions;
pub use waiting::Waiting;
