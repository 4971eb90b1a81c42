//! What is told of a message that misses a rule about a signal: where it is, what was there, and what was expected.

use crate::rules::{Asked, SignalRule};
use crate::tallies::Before;
use bench_judge::{Miss, put_miss, put_told_at};
use bench_select::value_in;
use ch11_layout::View;
use signal_dictionary::Signal;
use signal_values::{Amount, Reading, put_reading, put_told};
use std::alloc::AllocError;

/// Appends a number as the values of a signal are told.
fn put_number(text: &mut Vec<u8>, signal: &Signal, number: Amount) -> Result<(), AllocError> {
    put_reading(text, &signal.kind, Reading::Number(number))
}

/// Appends the value that a signal has in a message, behind its name, or that it has none.
fn put_value(
    text: &mut Vec<u8>,
    signal: &Signal,
    channel: u16,
    view: &View<'_>,
) -> Result<(), AllocError> {
    match value_in(signal, channel, view) {
        None | Some(Reading::Nothing) => text.extend_from_slice(b" no value"),
        Some(value) => put_told(text, signal, value),
    }
}

/// Appends which number was before, where one was.
fn put_before(
    text: &mut Vec<u8>,
    signal: &Signal,
    before: Option<Amount>,
) -> Result<(), AllocError> {
    let Some(before) = before else {
        return Ok(());
    };
    text.extend_from_slice(b" behind ")?;
    put_number(text, signal, before)
}

/// Appends which value was expected.
fn put_expected(text: &mut Vec<u8>, signal: &Signal, asked: &Asked) -> Result<(), AllocError> {
    text.extend_from_slice(b", expected ")?;
    match asked {
        Asked::OfMessages => Ok(()),
        Asked::Between { low, high } => {
            put_number(text, signal, *low)?;
            text.extend_from_slice(b" to ")?;
            put_number(text, signal, *high)
        }
        Asked::Told(label) => text.extend_from_slice(label.bytes.as_slice()),
        Asked::Step(most) => {
            text.extend_from_slice(b"a step of ")?;
            put_number(text, signal, *most)?;
            text.extend_from_slice(b" at most")
        }
    }
}

/// Appends where a message is that misses a rule, and why; this was before it in its channel.
pub(crate) fn put_signal_told(
    text: &mut Vec<u8>,
    rule: &SignalRule<'_>,
    miss: &Miss,
    before: Before,
    view: &View<'_>,
) -> Result<(), AllocError> {
    if matches!(rule.asked, Asked::OfMessages) {
        return put_told_at(text, miss, &rule.rule.check, before.compared, view);
    }
    put_miss(text, miss)?;
    text.push(b':')?;
    put_value(text, rule.signal, miss.channel, view)?;
    if matches!(rule.asked, Asked::Step(_)) {
        put_before(text, rule.signal, before.number)?;
    }
    put_expected(text, rule.signal, &rule.asked)
}
