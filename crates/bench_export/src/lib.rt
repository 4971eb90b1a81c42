//! The command `bench export`: a recording as comma-separated values, a row a message, or as a value change dump; and
//! what other tables of a recording share with it.
//!
//! It may know: words, bodies, layouts, the reader, the packets of a stream, selections, the dump, times, numbers
//! and words of a text. Its tests: `command_tests`, and of packets as they come `ch11_stream_tests`. Its wrong
//! bodies: `edits/`.
#![tactic(auto)]

mod changes;
mod choosing;
mod columns;
mod fault;
mod fields;
mod flags;
mod heads;
mod lines;
mod merging;
mod messages;
mod moments;
mod names;
mod place;
mod row;
mod signals;
mod stamped;
mod streaming;
mod survey;
mod table;
mod texts;
mod values;
mod waves;

pub use changes::{Change, Driven};
pub use choosing::{selects_among, selects_any};
pub use columns::{Columns, push_columns};
pub use fault::ExportFault;
pub use messages::write_row;
pub use names::{names_of, push_stamped_names};
pub use place::Place;
pub use row::Row;
pub use stamped::push_stamped;
pub use streaming::{Exported, export};
pub use table::Table;
pub use waves::{export_waves, read_as_shown};
