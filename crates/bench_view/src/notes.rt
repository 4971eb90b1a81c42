//! What a page says of a recording besides its messages: its name, the signals, the names of its channels, and from
//! which stamp on which time of day counts.

use crate::safe::put_safe;
use bench_clock::{Clock, TimeOfDay};
use bench_names::ChannelNames;
use ch11_layout::View;
use itoa::Buffer;
use signal_dictionary::{Kind, Signal};
use std::alloc::{AllocError, Global};

/// How many bytes the notes have at most.
const MOST: usize = 1_000_000;

/// A time of day at a stamp.
#[derive(Clone, Copy)]
struct Known {
    /// The stamp, in ticks of 0.1 µs.
    stamp: u64,
    /// The time in ticks behind 1970, or behind the begin of a year that no packet names.
    ticks: u64,
    /// Whether no packet names the year.
    of_year: bool,
}

/// The notes of a page on the way.
#[derive(Drop)]
pub(crate) struct Notes {
    times: Vec<u8>,
    line: Vec<u8>,
    last: Option<Known>,
}

/// Puts a number in decimal digits behind a space.
fn put_decimal(text: &mut Vec<u8>, number: u64) -> Result<(), AllocError> {
    let mut buffer = Buffer::new();
    text.push(b' ')?;
    text.extend_from_slice(buffer.format(number).as_bytes())
}

/// Puts a line, if there is room for it.
fn put_line(text: &mut Vec<u8>, line: &[u8], most: usize) -> Result<(), AllocError> {
    if line.len() <= most.saturating_sub(text.len()) {
        text.extend_from_slice(line)?;
    }
    Ok(())
}

/// Whether a signal has names in place of numbers.
fn has_names(signal: &Signal) -> bool {
    matches!(signal.kind, Kind::Names(_))
}

impl Known {
    /// The time of day at a stamp.
    fn of(stamp: u64, time: TimeOfDay) -> Known {
        match time {
            TimeOfDay::Utc(time) => Known {
                stamp,
                ticks: time.ticks,
                of_year: false,
            },
            TimeOfDay::OfYear(time) => Known {
                stamp,
                ticks: time.ticks,
                of_year: true,
            },
        }
    }

    /// Whether another time follows from this one by what has passed since.
    fn tells(&self, other: &Known) -> bool {
        self.of_year == other.of_year
            && self.stamp <= other.stamp
            && other.ticks.saturating_sub(self.ticks) == other.stamp - self.stamp
    }
}

impl Notes {
    /// No notes yet.
    pub(crate) fn new(alloc: Global) -> Notes {
        Notes {
            times: Vec::new(alloc),
            line: Vec::new(alloc),
            last: None,
        }
    }

    /// Notes the time of day of a message, where it does not follow from the last one that was noted.
    pub(crate) fn note(&mut self, clock: &Clock, view: &View<'_>) -> Result<(), AllocError> {
        if clock.is_empty() {
            return Ok(());
        }
        let Some(time) = clock.of_stamp(view.kind(), view.stamp()) else {
            return Ok(());
        };
        let known = Known::of(view.stamp(), time);
        if self.last.is_some_and(|last| last.tells(&known)) {
            return Ok(());
        }
        self.last = Some(known);
        self.put_mark(known)
    }

    /// Puts a time of day.
    fn put_mark(&mut self, known: Known) -> Result<(), AllocError> {
        self.line.clear();
        self.line.extend_from_slice(b"mark")?;
        put_decimal(&mut self.line, known.stamp)?;
        if known.of_year {
            self.line.extend_from_slice(b" year")?;
        } else {
            self.line.extend_from_slice(b" utc")?;
        }
        put_decimal(&mut self.line, known.ticks)?;
        self.line.push(b'\n')?;
        put_line(&mut self.times, self.line.as_slice(), MOST / 2)
    }

    /// Puts a signal.
    fn put_signal(&mut self, text: &mut Vec<u8>, signal: &Signal) -> Result<(), AllocError> {
        self.line.clear();
        self.line.extend_from_slice(b"signal ")?;
        put_safe(&mut self.line, signal.name.bytes.as_slice())?;
        if has_names(signal) {
            self.line.extend_from_slice(b" names ")?;
        } else {
            self.line.extend_from_slice(b" numbers ")?;
        }
        put_safe(&mut self.line, signal.unit.bytes.as_slice())?;
        self.line.push(b'\n')?;
        put_line(text, self.line.as_slice(), MOST / 4)
    }

    /// Puts the name of a channel, if it has one.
    fn put_channel(
        &mut self,
        text: &mut Vec<u8>,
        channel: u16,
        names: &ChannelNames<'_>,
    ) -> Result<(), AllocError> {
        let Some(name) = names.name(channel) else {
            return Ok(());
        };
        self.line.clear();
        self.line.extend_from_slice(b"channel")?;
        put_decimal(&mut self.line, u64::from(channel))?;
        self.line.push(b' ')?;
        put_safe(&mut self.line, name.as_bytes())?;
        self.line.push(b'\n')?;
        put_line(text, self.line.as_slice(), MOST / 2)
    }

    /// All notes, where so many messages are of each channel.
    pub(crate) fn end(
        mut self,
        alloc: Global,
        name: &str,
        signals: &[Signal],
        names: &ChannelNames<'_>,
        counts: &[u64],
    ) -> Result<Vec<u8>, AllocError> {
        let mut text = Vec::new(alloc);
        text.extend_from_slice(b"recording ")?;
        put_safe(&mut text, name.as_bytes())?;
        text.push(b'\n')?;
        for signal in signals {
            self.put_signal(&mut text, signal)?;
        }
        for (place, count) in counts.iter().enumerate() {
            if let Ok(channel) = u16::try_from(place)
                && *count > 0
            {
                self.put_channel(&mut text, channel, names)?;
            }
        }
        put_line(&mut text, self.times.as_slice(), MOST)?;
        Ok(text)
    }
}
