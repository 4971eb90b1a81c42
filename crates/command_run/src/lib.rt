//! The command `bench run`: jobs recorded into a file with the report of the run beside it; also live or at a pace,
//! completed, judged, and held to be without mistakes.
//!
//! It may know: what commands share, files, jobs, the writer, reports, rules, dictionaries of signals, decoded
//! messages, words of a text, what runs share, mailboxes, runs, `bench_run_command` and `bench_live`; of what a
//! recording comes to `command_finishing`, `bench_complete`, `bench_judge`, `signal_judge` and `bench_check`. It has no
//! tests: the command is tried by `.ci/commands`, and its faults by `.ci/faults`. It has no wrong bodies.
#![tactic(auto)]

mod completed_run;
mod judged_run;
mod live_run;
mod recording;
mod run_line;
mod strict_run;

pub use completed_run::Completing;
pub use live_run::Going;
pub use recording::run;
pub use run_line::{Request, command, request_in};
