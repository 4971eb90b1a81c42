//! The figures of a channel.

use crate::errors::Errors;
use crate::terminals::TerminalFigures;
use crate::traffic::Traffic;
use mil_word::fields::FIELD_VALUES;

/// What is counted of a channel.
#[derive(Clone, Copy, Debug, PartialEq, Eq)]
pub struct ChannelFigures {
    /// The channel's number.
    pub channel: u16,
    /// Messages, words and times.
    pub traffic: Traffic,
    /// Errors by their kind.
    pub errors: Errors,
    /// How many messages were a retry on the other line: their commands are those of the message before, which had an
    /// error.
    pub retries: u64,
    /// The terminals by their address, 0 to 31; 31 is that of all terminals.
    pub terminals: [TerminalFigures; FIELD_VALUES],
}
