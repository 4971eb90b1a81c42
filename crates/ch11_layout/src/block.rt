//! The places of the bits of a block status word, counted from 0, the last one (IRIG 106-17 Chapter 11, MIL-STD-1553
//! bus data packets, Format 1).

/// The message was sent on line B.
pub const LINE_B: u32 = 13;

/// The summary of its errors.
pub const MESSAGE_ERROR: u32 = 12;

/// A transfer between terminals, which has two commands.
pub const TERMINAL_TO_TERMINAL: u32 = 11;

/// A format error.
pub const FORMAT_ERROR: u32 = 10;

/// No response, or a late one.
pub const RESPONSE_TIMEOUT: u32 = 9;

/// Another number of words than due.
pub const WORD_COUNT_ERROR: u32 = 5;

/// A sound word with the wrong sync for its place.
pub const SYNC_TYPE_ERROR: u32 = 4;

/// An unsound word.
pub const INVALID_WORD_ERROR: u32 = 3;
