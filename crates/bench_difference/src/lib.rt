//! Where jobs, report and recording do not agree: the message that a job makes, and the one that the recording has,
//! in words. What is said here stands behind the line of the fault Y1, and changes nothing of that line.
//!
//! It may know: jobs, headers, bodies, the reader, reports. It has no tests: its lines are tried by `.ci/commands`. It
//! has no wrong bodies.
#![tactic(auto)]

mod channels;
mod messages;

pub use messages::difference;
