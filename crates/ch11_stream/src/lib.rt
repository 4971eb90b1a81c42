//! The packets of a recording one after the other as its bytes come (IRIG 106-17 Chapter 11), in memory for the
//! largest packet of messages or of time, and long ones of other types passed unread where that can be; the same with
//! all bytes of each packet, and the stretches of a recording that may be damaged, both in memory for the largest
//! packet of any type. Which bytes are a recording, and what it holds, is said by `ch11_reader`.
//!
//! It may know: headers, bodies, what `ch11_reader` calls a recording, histories. Its tests: `ch11_stream_tests`.
//! Its wrong bodies: `edits/`.
#![tactic(auto)]

mod advance;
mod buffer;
mod fault;
mod feed;
mod found;
mod laws;
mod listed;
mod looking;
mod packets;
mod sound;
mod standing;
mod stretch;
mod stretches;
mod taking;
mod whole;

pub use advance::Advance;
pub use fault::StreamFault;
pub use laws::{steps_read_the_file, stretches_read_the_file};
pub use packets::Packets;
pub use sound::SoundPackets;
pub use stretch::Stretch;
pub use stretches::Stretches;
pub use whole::WholePackets;
