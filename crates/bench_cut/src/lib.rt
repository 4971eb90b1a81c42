//! The command `bench cut`: a recording of some of the messages of another, whose packets of other types go over as
//! they are: to hand on the minute that matters, or what is sound of a damaged recording.
//!
//! It may know: headers, bodies, layouts, the reader, the packets of a stream, selections, what `bench_complete` makes
//! of packets; the kit's `byteorder`. Its tests: `command_tests`. Its wrong bodies: `edits/`.
#![tactic(auto)]

mod bodies;
mod choosing;
mod cutting;
mod fault;
mod heads;
mod laws;
mod losses;

pub use cutting::cut;
pub use fault::CutFault;
pub use laws::{copy_stays, cut_is_read, numbers_tell_loss};
