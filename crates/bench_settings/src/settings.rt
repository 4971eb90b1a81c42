//! What the channels of a run share, and what is asked of it.

/// The data type version in each packet header (IRIG 106-17 Chapter 11), where none is asked for.
pub const DEFAULT_VERSION: u8 = 6;

/// How many bytes a packet has at most, where no limit is asked for.
pub const DEFAULT_LIMIT: u32 = 65_536;

/// How many items the queue holds at most, where no queue is asked for.
pub const DEFAULT_QUEUE: u32 = 4096;

/// How many actions that hosts post are taken for a channel at most (own choice).
pub const MOST_POSTS: u32 = 65_536;

/// What all channels of a run share.
#[derive(Drop)]
pub struct Settings {
    /// The data type version in each packet header (IRIG 106-17 Chapter 11).
    pub version: u8,
    /// How many bytes a packet has at most, 256 to 524,288.
    pub limit: u32,
    /// How many items the queue holds at most, 1 to 4096.
    pub queue: u32,
    /// The packets that stand in front of all others, with none of MIL-STD-1553 messages.
    pub prologue: Vec<u8>,
    /// How many actions that hosts post while a channel runs are taken at most, 0 to `MOST_POSTS`.
    pub posts: u32,
}
