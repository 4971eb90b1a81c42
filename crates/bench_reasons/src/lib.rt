//! Why the text of a script, a job, rules or a dictionary of signals is refused, in words: which of its words is at
//! fault, what is wrong with it, and what to do. What is said here stands behind a fault's line, and changes nothing of
//! that line.
//!
//! It may know: messages, the text of scripts, rules, dictionaries of signals and their values, numbers and words of a
//! text. Its tests: `command_tests`. Its wrong bodies: `edits/`.
#![tactic(auto)]

mod control_symbols;
mod dictionaries;
mod fault;
mod inserted;
mod jobs;
mod kinds;
mod lines;
mod messages;
mod places;
mod reason;
mod repeated;
mod rule_symbols;
mod rules;
mod scripts;
mod session;
mod showing;
mod signal_rules;
mod signal_symbols;
mod slips;
mod spans;
mod symbols;
mod view;
mod walk;
mod words;

pub use dictionaries::dictionary_reason;
pub use fault::{LineFault, MessageFault, RuleFault, ScriptFault};
pub use jobs::job_script_reason;
pub use lines::line_reason;
pub use places::Place;
pub use reason::{Other, Reason};
pub use rules::rule_reason;
pub use scripts::{Text, script_reason};
pub use session::Explained;
pub use showing::{explained, put_place};
pub use signal_rules::signal_rule_reason;
pub use view::{View, part_shown};
