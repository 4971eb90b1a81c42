//! Rules about signals: those of a text that may name signals of a dictionary, and their verdicts on a recording,
//! beside those of all other rules.
//!
//! It may know: words, dictionaries of signals and their values, rules, verdicts, headers, bodies, layouts, the reader,
//! the packets of a stream, watched files, selections, the dump, words of a text. It has no tests of its own: `bench
//! judge` is tried by `.ci/commands`. Its wrong bodies: `edits/`.
#![tactic(auto)]

mod asked;
mod first;
mod judging;
mod junit;
mod passes;
mod reading;
mod rules;
mod tallied;
mod tallies;
mod told;

pub use judging::{Verdicts, judge_all};
pub use junit::{AllJudged, junit_of_all};
pub use passes::write_all_verdicts;
pub use reading::read_all_rules;
pub use rules::{AllRules, Asked, SignalRule};
