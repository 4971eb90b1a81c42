//! Recordings with no MIL-STD-1553 messages.
ghost use Rattle.ch11_reader.specs.Recording.{HoldsNoMessages};
ghost use Rattle.std.specs.Prelude.{◌↔◌, IsTrue};

use crate::packet::check_packet;
use ch11_header::kinds::BUS_MESSAGES;

/// Whether a recording can be read and none of its packets is of MIL-STD-1553 messages. It takes no memory.
pub fn holds_no_messages(file: &[u8]) -> bool
    ensures { IsTrue result ↔ HoldsNoMessages file.now }
{
    let mut rest = file;
    while !rest.is_empty() {
        let Ok(checked) = check_packet(rest) else {
            return false;
        };
        if checked.header.kind == BUS_MESSAGES {
            return false;
        }
        let (_, after) = rest.split_at(checked.header.packet_length as usize);
        rest = after;
    }
    true
}
