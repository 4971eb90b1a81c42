//! The command `bench compare`: two recordings, channel by channel, message by message: how many messages each has, and
//! the first that differs.
//!
//! It may know: words, bodies, layouts, the reader, the packets of a stream, watched files, selections, the dump, words
//! of a text. Its tests: `command_tests`. Its wrong bodies: `edits/`.
#![tactic(auto)]

mod channel_pass;
mod channels;
mod comparing;
mod counting;
mod differences;
mod fault;
mod junit;
mod kept;
mod laws;
mod lines;
mod pairs;

pub use comparing::{Sides, compare};
pub use differences::{Compared, Difference, Origins, Part};
pub use fault::{CompareFault, SideFault};
pub use junit::write_junit;
pub use kept::{Kept, Met};
pub use laws::{first_difference, no_difference, none_differs};
pub use lines::{differing, write_channel, write_comparison, write_part, write_totals};
pub use pairs::part_of;
