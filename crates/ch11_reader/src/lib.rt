//! Recordings as they are read (IRIG 106-17 Chapter 11): which bytes are one, and what it holds.
//!
//! It may know: headers, bodies. Its tests: `ch11_tests`. Its wrong bodies: `edits/`.
#![tactic(auto)]

mod build;
mod channel;
mod error;
mod index;
mod judge;
mod jumps;
mod laws;
mod others;
mod packet;
mod search;
mod skip;
mod skipping;

pub use build::{CHANNELS, list_packet, no_sequences};
pub use channel::ChannelMessages;
pub use error::{PacketFault, ReadError, Refusal};
pub use index::Index;
pub use laws::{nothing_sound_is_skipped, recordings_join};
pub use others::holds_no_messages;
pub use packet::{Checked, Packet, check_packet, messages_of_packet};
pub use skip::Skip;
pub use skipping::SkippingIndex;
