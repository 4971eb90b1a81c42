//! The messages of a recording as people read them, on one line or on several; and those that are chosen, also in
//! the order of their stamps. `bench dump --decode` prints them.
//!
//! It may know: words, mode codes, bodies, layouts, the reader, the packets of a stream, selections, dictionaries of
//! signals and their values, the dump. Its tests: `command_tests`, and of packets as they come `ch11_stream_tests`. Its
//! wrong bodies: `edits/`.
#![tactic(auto)]

mod by_time;
mod chosen;
mod details;
mod digits;
mod fields;
mod front;
mod line;
mod messages;
mod modes;
mod numbers;
mod printing;
mod readings;
mod replies;
mod streaming;
mod superseding;
mod times;
mod words;

pub use by_time::decode_by_time;
pub use chosen::{Chosen, messages_by_time};
pub use details::put_details;
pub use line::{Shown, TextLine};
pub use messages::{Place, write_columns, write_message};
pub use numbers::Numbers;
pub use printing::Output;
pub use streaming::decode;
pub use times::Time;
