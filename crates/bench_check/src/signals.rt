//! The values of signals in a message that is tried.

use bench_select::value_in;
use ch11_f1::{RECORD_HEAD, Record, body, put_record};
use ch11_layout::{StampKind, View};
use mil_bus::Talk;
use mil_line::MOST_SENT;
use mil_monitor::observe;
use signal_dictionary::Signal;
use signal_values::put_told;
use std::alloc::{AllocError, Global};
use std::str;

/// How many bytes the word takes that tells how many messages a body has.
const COUNT: usize = 4;

/// How many bytes the body of a packet with one message takes at most.
const BODY: usize = COUNT + RECORD_HEAD + 2 * MOST_SENT;

/// Puts a line with the values of these signals in a message of a channel, where it has any.
pub(crate) fn put_signals(
    alloc: Global,
    text: &mut String,
    signals: &[Signal],
    channel: u16,
    talk: &Talk,
) -> Result<(), AllocError> {
    if signals.is_empty() {
        return Ok(());
    }
    put_recorded(alloc, text, signals, channel, &observe(talk))
}

/// The same of a message as it is recorded; one whose stamp no recording can hold has none.
fn put_recorded(
    alloc: Global,
    text: &mut String,
    signals: &[Signal],
    channel: u16,
    message: &Record,
) -> Result<(), AllocError> {
    let mut packed = [0u8; BODY];
    packed[0] = 1;
    let mut len = 0;
    if message.stamp >> 48 == 0 && message.words.len() <= MOST_SENT {
        len = COUNT + put_record(message, &mut packed[COUNT..]);
    }
    let Ok(messages) = body::messages(&packed[..len.min(BODY)]) else {
        return Ok(());
    };
    let mut rest = messages;
    'messages: while let Some(seen) = rest.next() {
        let view = View::of(StampKind::Counter, &seen);
        put_values(alloc, text, signals, channel, &view)?;
    }
    Ok(())
}

/// Puts the line of a message.
fn put_values(
    alloc: Global,
    text: &mut String,
    signals: &[Signal],
    channel: u16,
    view: &View<'_>,
) -> Result<(), AllocError> {
    let mut told = Vec::new(alloc);
    for signal in signals {
        if let Some(reading) = value_in(signal, channel, view) {
            put_told(&mut told, signal, reading)?;
        }
    }
    if !told.is_empty() {
        text.push_str("  signals")?;
        text.push_str(str::from_utf8(told.as_slice()).unwrap_or(""))?;
        text.push_str("\n")?;
    }
    Ok(())
}
