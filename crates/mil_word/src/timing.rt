//! How long words last and how long is waited for them, in ticks of 0.1 µs. A gap runs from the middle of a word's
//! parity bit to the middle of the next word's sync (MIL-STD-1553B 4.3.3.7).

/// A word: 20 bit times of 1 µs (4.3.3.4).
pub const WORD_TIME: u16 = 200;

/// From the middle of a word's sync to the middle of its parity bit.
pub const SYNC_TO_PARITY: u16 = 180;

/// The gap of contiguous words, with no pause between them.
pub const CONTIGUOUS_GAP: u16 = 20;

/// The least gap between messages (4.3.3.7).
pub const LEAST_GAP: u16 = 40;

/// The least gap behind a message that failed or ended with a word of the controller (own choice).
pub const LONGER_GAP: u16 = 180;

/// The gap of a terminal's reply, at least (4.3.3.8).
pub const LEAST_RESPONSE: u8 = 40;

/// The gap of a terminal's reply, at most (4.3.3.8).
pub const LATEST_RESPONSE: u8 = 120;

/// How long the controller waits for a reply (4.3.3.9; own choice of the least that is allowed).
pub const RESPONSE_TIME_OUT: u16 = 140;

/// How long the receiver of a transfer waits for its first data word, from the middle of its own command's parity bit
/// to the middle of that word's sync (own choice).
pub const TRANSFER_TIME_OUT: u16 = 570;
