//! The command `bench signals`: the values of signals in a recording as comma-separated values, a row a value or a row
//! a message; and the figures of signals, as a value and as text.
//!
//! It may know: dictionaries of signals and their values, bodies, layouts, the reader, the packets of a stream,
//! selections, the dump, times, words of a text, `bench_export`. Its tests: `command_tests`. Its wrong bodies:
//! `edits/`.
#![tactic(auto)]

mod counting;
mod figures;
mod latest;
mod names;
mod printing;
mod rows;
mod sheet;
mod statistics;
mod streaming;

pub use figures::{SignalFigures, Told};
pub use printing::print_signals;
pub use sheet::{Rows, Sheet};
pub use statistics::count_signals;
pub use streaming::export_signals;
