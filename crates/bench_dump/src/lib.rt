//! The command `bench dump`: a recording as lines of text, in passes over it.
//!
//! It may know: headers, bodies, layouts, the reader, the packets of a stream with `ch11_check`, times, numbers of a
//! text. Its tests: `ch11_tests`, `ch11_stream_tests`. Its wrong bodies: `edits/`.
#![tactic(auto)]

mod digits;
mod input;
mod laws;
mod lines;
mod output;
mod passes;
mod places;
mod skipping;
mod skips;
mod streaming;
mod text;

pub use digits::place_decimal;
pub use input::{read_all, read_sized};
pub use laws::timeless_is_plain;
pub use lines::put_words;
pub use passes::{dump, dump_with_times};
pub use places::{place_bus_words, place_bytes};
pub use skipping::dump_skipping;
