//! In what two messages differ.

use crate::kept::Kept;

/// The first part in which two messages differ.
#[derive(Clone, Copy, Debug, PartialEq, Eq)]
pub enum Part {
    /// The distances of their stamps from the first of their channel.
    Stamp,
    /// The lines that they went over.
    Line,
    /// Their bus words.
    Words,
    /// Their block status words.
    Block,
    /// Their gap times words.
    Gaps,
    /// The first recording has no such message.
    MissingInFirst,
    /// The second recording has no such message.
    MissingInSecond,
}

/// The stamps of the first chosen message of a channel in each recording, in ticks of 0.1 µs, 0 where there is none.
#[derive(Clone, Copy, Debug, PartialEq, Eq)]
pub struct Origins {
    pub first: u64,
    pub second: u64,
}

/// The first message of a channel that differs.
#[derive(Debug, Drop)]
pub struct Difference {
    /// Its number among the chosen messages of the channel, counted from 1.
    pub number: u64,
    /// In what it differs.
    pub part: Part,
    /// The message of the first recording, if it has one.
    pub first: Option<Kept>,
    /// The message of the second recording, if it has one.
    pub second: Option<Kept>,
    /// The stamps from which those of the channel are told.
    pub origins: Origins,
}

/// A channel of two recordings, compared.
#[derive(Debug, Drop)]
pub struct Compared {
    /// The channel.
    pub channel: u16,
    /// How many chosen messages the first recording has of it.
    pub first: u64,
    /// How many the second has.
    pub second: u64,
    /// The first that differs, if any does.
    pub difference: Option<Difference>,
}
