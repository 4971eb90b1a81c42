//! What the commands of `bench` make of a request: its files, its jobs, its settings, a listing that nobody reads to
//! its end, and why it is refused with which exit status.
//!
//! It may know: jobs, headers, the reader, the packets of a stream, reports, what runs share, runs, rules, verdicts,
//! dictionaries of signals, files, words of a text, and the faults of `bench_one`, `bench_assemble`, `bench_dump` and
//! `bench_step`. It has no tests: what it says is tried by `.ci/commands` and `.ci/faults`. Its wrong bodies: `edits/`.
#![tactic(auto)]

mod apart;
mod dictionaries;
mod ending;
mod endings;
mod fault;
mod files;
mod jobs;
mod judging;
mod listing;
mod losses;
mod rules;
mod run_files;
mod settings;

pub use apart::{Place, told_apart};
pub use dictionaries::dictionary_of;
pub use ending::Ending;
pub use endings::{ending_of_run, ending_of_settings};
pub use fault::CommandFault;
pub use files::{
    begin, open_to_read, put_in_place, read_again, read_texts, read_whole, replaceable,
    texts_again, write_new, writer_of,
};
pub use jobs::jobs_of;
pub use judging::{junit_of, recording_first, rules_asked, rules_text, verdict_on};
pub use listing::{Listing, unless_gone};
pub use losses::tells_of_loss;
pub use rules::{fault_of_rules, rules_of};
pub use run_files::RunFiles;
pub use settings::{RunRequest, settings_of};
