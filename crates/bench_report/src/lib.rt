//! The report of a run, as a value and as text.
//!
//! It may know: words, host actions, what the host of a controller asks for, as values and as text, placed actions,
//! numbers and words of a text. Its tests: `bench_tests`. Its wrong bodies: `edits/`.
#![tactic(auto)]

mod channels;
mod drafts;
mod fault;
mod laws;
mod lines;
mod numbers;
mod printing;
mod reading;
mod reports;
mod stages;

pub use channels::ChannelReport;
pub use fault::{ReportError, ReportFault};
pub use laws::text_spells_one_report;
pub use printing::{HostActionText, print_report, write_report};
pub use reading::read_report;
pub use reports::Report;
