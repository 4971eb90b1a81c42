//! The command `bench draw`: a recording as a picture, its messages over time.
//!
//! It may know: words, bodies, layouts, the reader, the packets of a stream, watched files, selections, decoded
//! messages, times, names of channels, dictionaries of signals and their values, `bench_signals`. Its tests:
//! `command_tests`, and of recordings that are read anew `ch11_stream_tests`. Its wrong bodies: `edits/`.
#![tactic(auto)]

mod asked;
mod axis;
mod bands;
mod bars;
mod called;
mod canvas;
mod drawing;
mod drawn;
mod extent;
mod fault;
mod frame;
mod frames;
mod group;
mod labels;
mod lanes;
mod load;
mod loads;
mod picture;
mod plan;
mod plot;
mod plots;
mod range;
mod rhythm;
mod rows;
mod scale;
mod timed;
mod track;

pub use asked::Asked;
pub use axis::{Unit, first_step, step_of};
pub use called::Called;
pub use drawing::{Drawing, draw};
pub use fault::DrawFault;
pub use picture::MOST_BYTES;
pub use track::{By, Track};
