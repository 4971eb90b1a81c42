//! The command `bench judge`: which messages or packets of a recording a rule selects, which of them miss it, and
//! whether it is held, in passes over the recording.
//!
//! It may know: numbers and words of a text, headers, words, mode codes, messages, bodies, layouts, the reader, the
//! packets of a stream, watched files, rules, selections, the dump, decoded messages, names of channels. Its tests:
//! `command_tests`, `ch11_stream_tests`. Its wrong bodies: `edits/`.
#![tactic(auto)]

mod characters;
mod checks;
mod clean;
mod colored;
mod digits;
mod escaping;
mod expected;
mod fault;
mod judging;
mod junit;
mod kept;
mod lines;
mod losses;
mod names;
mod numbers;
mod packets;
mod pass_fault;
mod passes;
mod replies;
mod selection;
mod shown;
mod skips;
mod sought;
mod tallied;
mod tallies;
mod telling;
mod there;
mod told;
mod verdicts;

pub use colored::write_colored;
pub use fault::PrintFault;
pub use judging::{judge, no_tallies, note_messages};
pub use junit::{Named, junit_text, put_case_head, put_failure, put_lost, put_suite_head};
pub use lines::{write_count, write_last, write_miss, write_numbers};
pub use losses::{Lost, count_lost};
pub use names::Names;
pub use pass_fault::PassFault;
pub use passes::{
    Ruled, write_each_miss, write_missed_of, write_misses, write_packets, write_verdicts,
};
pub use selection::selects;
pub use skips::read_skips;
pub use sought::{Wanted, tell_first};
pub use tallied::{Tallied, note_miss};
pub use tallies::Tally;
pub use telling::{tell_messages, tell_packets};
pub use told::{put_miss, put_told_at};
pub use verdicts::{Judged, Miss, RuleVerdict, not_held, verdict_of};
