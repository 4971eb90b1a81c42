//! The command `bench stat`: figures of each channel and each terminal of a recording, as a value and as text.
//!
//! It may know: words, headers, bodies, layouts, the reader, the packets of a stream, selections, times, names of
//! channels, words of a text. Its tests: `command_tests`, and of packets as they come `ch11_stream_tests`. Its wrong
//! bodies: `edits/`.
#![tactic(auto)]

mod calls;
mod channels;
mod chosen;
mod counts;
mod details;
mod entries;
mod errors;
mod figure_rows;
mod flows;
mod followed;
mod following_packets;
mod kinds;
mod losses;
mod page;
mod printing;
mod replies;
mod rows;
mod senders;
mod sendings;
mod shown;
mod slices;
mod streaming;
mod stretches;
mod tables;
mod tally;
mod terminals;
mod times;
mod told;
mod traffic;
mod units;

pub use calls::{Call, CallKind};
pub use channels::ChannelFigures;
pub use details::Details;
pub use errors::Errors;
pub use flows::Flow;
pub use followed::Followed;
pub use following_packets::{ToldChannels, told_channels};
pub use kinds::{KindFigures, print_kinds, read_kinds};
pub use losses::Losses;
pub use page::{print_channel, print_losses, print_name, print_page};
pub use replies::Replies;
pub use rows::print_tables;
pub use sendings::Sending;
pub use shown::Shown;
pub use slices::Slice;
pub use streaming::stat;
pub use stretches::Stretches;
pub use tally::Tally;
pub use terminals::TerminalFigures;
pub use times::Times;
pub use told::Told;
pub use traffic::Traffic;
