//! The command `bench complete`: a recording made into the file that other Chapter 10 and 11 tools expect, with a
//! setup record in front, a time packet each second, and packets in order of time: the one merge of its channels, in
//! memory for where the packets stand, which are read there.
//!
//! It may know: headers, bodies, the reader, the packets of a stream, times; the kit's `jiff_core` for dates. Its
//! tests: `command_tests`. Its wrong bodies: `edits/`.
#![tactic(auto)]

mod additions;
mod completion;
mod extent;
mod fault;
mod head;
mod judging;
mod lanes;
mod laws;
mod leading;
mod links;
mod listing;
mod merge;
mod original;
mod placed;
mod places;
mod setup;
mod time_packet;
mod times;
mod utc;

pub use additions::{Additions, UtcSecond};
pub use completion::{Completion, complete};
pub use fault::CompleteFault;
pub use laws::{equal_parts, merge_is_unique, reading_stays, stays_complete};
pub use places::Places;
