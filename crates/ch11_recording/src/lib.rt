//! A recording as a whole (IRIG 106-17 Chapter 11): the file of a list of items, how it is written, and what it is
//! read as.
//!
//! It may know: headers, bodies, the builder, the reader, the writer. Its tests: `ch11_tests`. Its wrong bodies:
//! `edits/`.
#![tactic(auto)]

mod item;
mod laws;
mod open_channel;
mod packet_writer;
mod recorder;

pub use item::Item;
pub use laws::{
    file_is_packets, latest_is_last, record_fits, recording_goes_on, recording_is_read_again,
};
pub use recorder::Recorder;
