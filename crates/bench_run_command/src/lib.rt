//! The command `bench run`: jobs on threads of their own, one recording of them all, its progress, and how much is in
//! it.
//!
//! It may know: jobs, the reader, the writer, reports, what runs share, runs, watched files. Its tests: `run_tests`.
//! Its wrong bodies: `edits/`.
#![tactic(auto)]

mod counts;
mod progress;
mod recording;
mod refused;

pub use counts::{Counts, print_counts};
pub use progress::Progress;
pub use recording::{record_jobs, record_jobs_with_progress};
pub use refused::refusals;
