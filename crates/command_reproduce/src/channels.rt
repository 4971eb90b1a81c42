//! Which channels of a recording have messages.

use ch11_stream::{Advance, Packets, StreamFault};
use std::alloc::Global;

/// Which channel of a recording has messages.
#[derive(Clone, Copy, Debug, PartialEq, Eq)]
pub(crate) enum Found {
    /// None.
    None,
    /// This one alone.
    One(u16),
    /// Several.
    Several,
}

/// What is known behind a packet of a channel with so many messages.
fn with_packet(found: Found, channel: u16, messages: u64) -> Found {
    if messages == 0 {
        return found;
    }
    match found {
        Found::None => Found::One(channel),
        Found::One(own) if own == channel => found,
        _ => Found::Several,
    }
}

/// Which channel has messages, of all bytes that a reader has left: a pass over its packets.
pub(crate) fn find_channel<R: Advance + Drop>(
    alloc: Global,
    input: R,
) -> Result<Found, StreamFault> {
    let mut packets = Packets::over(alloc, input)?;
    let mut found = Found::None;
    'packets: for _made in 0..u64::MAX {
        match packets.next() {
            Ok(Some(packet)) => {
                let messages = packets.messages().left();
                found = with_packet(found, packet.header.channel, messages);
            }
            Ok(None) => return Ok(found),
            Err(fault) => return Err(fault),
        }
    }
    Err(StreamFault::Device)
}
