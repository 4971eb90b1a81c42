//! What goes into a recording, item by item.
use ch11_f1::Record;

/// What goes into a recording.
#[derive(Debug, Drop)]
pub enum Item {
    /// A message of a channel: its number there, from 1, and what the bus monitor kept of it.
    Message {
        channel: u16,
        number: u64,
        record: Record,
    },

    /// The end mark of a channel: no message of it follows.
    End {
        channel: u16,
    },
}
