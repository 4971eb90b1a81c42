//! The command `bench view`: the messages of a recording as one page for a browser, which needs nothing else.
//!
//! It may know: bodies, layouts, the reader, the packets of a stream, selections, decoded messages, times, names of
//! channels, dictionaries of signals and their values, numbers of a text, `bench_signals`. Its tests: `command_tests`;
//! the page's own script, `page/view.js`, is tried by `.ci/view`. Its wrong bodies: `edits/`.
#![tactic(auto)]

mod filling;
mod front;
mod letters;
mod line;
mod notes;
mod page;
mod parts;
mod safe;
mod script_1;
mod script_2;
mod script_3;
mod script_4;
mod script_5;
mod streaming;

pub use filling::{MOST_BYTES, MOST_MESSAGES};
pub use page::{Asked, Page, Template};
pub use parts::template;
pub use streaming::page_of;
