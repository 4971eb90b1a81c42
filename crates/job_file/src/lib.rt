//! Jobs: all that is to be known of a channel's bus, as one text (own choice); the records of a job, and its state
//! after so many messages.
//!
//! It may know: words, messages, host actions, what the host of a controller asks for, as values and as text, gaps and
//! planned faults, selectors of rules, moments, the bus, the monitor, recorded messages, scripts from their text to the
//! loader, the controller, histories, numbers and words of a text. Its tests: `frame_tests`. Its wrong bodies:
//! `edits/`.
#![tactic(auto)]

mod by_line;
mod drafts;
mod error;
mod job_run;
mod jobs;
mod keywords;
mod laws;
mod lines;
mod numbers;
mod parts;
mod reading;
mod resolving;
mod scripts;
mod spans;
mod stepping;
mod texts;
mod timed;
mod turns;
mod whens;

pub use by_line::{SaidLines, said_lines};
pub use error::{JobError, JobsError, LineFault};
pub use job_run::{Due, JobRun};
pub use jobs::Job;
pub use laws::job_runs;
pub use reading::read_job;
pub use stepping::next_record;
pub use texts::read_jobs;
