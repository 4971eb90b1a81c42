//! What was compared, as JSON lines.

use bench_compare::{Compared, Difference, Kept, Part, differing};
use bench_dump::put_words;
use bench_json::Object;
use ch11_layout::View;
use mil_word::Line;
use std::alloc::{AllocError, Global};

/// What was compared as JSON lines: an object for each channel, and behind it, where it differs, one for the first
/// message that does; last how many channels there are and how many differ.
pub(crate) fn json_of(alloc: Global, compared: &[Compared]) -> Result<Vec<u8>, AllocError> {
    let mut text = Vec::new(alloc);
    for channel in compared {
        put_channel(alloc, channel, &mut text)?;
    }
    let mut last = Object::new(alloc);
    last.add_number("channels", compared.len() as u64)?;
    last.add_number("differ", differing(compared) as u64)?;
    last.put(&mut text)?;
    Ok(text)
}

/// Appends the lines of a channel.
fn put_channel(alloc: Global, compared: &Compared, text: &mut Vec<u8>) -> Result<(), AllocError> {
    let mut numbers = Object::new(alloc);
    numbers.add_number("channel", u64::from(compared.channel))?;
    numbers.add_number("first_messages", compared.first)?;
    numbers.add_number("second_messages", compared.second)?;
    numbers.put(text)?;
    if let Some(difference) = &compared.difference {
        let mut told = Object::new(alloc);
        told.add_number("channel", u64::from(compared.channel))?;
        told.add_number("differs_at", difference.number)?;
        told.add_text("part", name_of(difference.part).as_bytes())?;
        add_both(alloc, &mut told, difference)?;
        told.put(text)?;
    }
    Ok(())
}

/// The name of a part.
fn name_of(part: Part) -> &'static str {
    match part {
        Part::Stamp => "stamp",
        Part::Line => "line",
        Part::Words => "words",
        Part::Block => "block",
        Part::Gaps => "gaps",
        Part::MissingInFirst => "missing in A",
        Part::MissingInSecond => "missing in B",
    }
}

/// Adds what each recording has, and the number in the file of each message that is there.
fn add_both(alloc: Global, object: &mut Object, difference: &Difference) -> Result<(), AllocError> {
    let (part, origins) = (difference.part, difference.origins);
    if let Some(message) = &difference.first {
        object.add_number("first_number", message.number())?;
        add_value(alloc, object, "first", part, message, origins.first)?;
    }
    if let Some(message) = &difference.second {
        object.add_number("second_number", message.number())?;
        add_value(alloc, object, "second", part, message, origins.second)?;
    }
    Ok(())
}

/// Adds what a message has in a part; nothing where it is missing in the other recording.
fn add_value(
    alloc: Global,
    object: &mut Object,
    key: &str,
    part: Part,
    message: &Kept,
    first: u64,
) -> Result<(), AllocError> {
    let view = message.view();
    match part {
        Part::Stamp => add_distance(object, key, view.stamp(), first),
        Part::Line => object.add_text(key, letter(&view).as_bytes()),
        Part::Words => {
            let mut digits = Vec::new(alloc);
            put_words(&mut digits, view.bytes())?;
            object.add_words(key, digits.as_slice())
        }
        Part::Block => add_word(alloc, object, key, view.block()),
        Part::Gaps => add_word(alloc, object, key, view.gaps()),
        Part::MissingInFirst | Part::MissingInSecond => Ok(()),
    }
}

/// Adds a word of four hexadecimal digits.
fn add_word(alloc: Global, object: &mut Object, key: &str, word: u16) -> Result<(), AllocError> {
    let digits = format!(in alloc; "{word:04X}")?;
    object.add_text(key, digits.as_bytes())
}

/// Adds how far a stamp is from the first of its channel, in ticks of 0.1 µs.
fn add_distance(object: &mut Object, key: &str, stamp: u64, first: u64) -> Result<(), AllocError> {
    if stamp < first {
        object.add_negative(key, first - stamp)
    } else {
        object.add_number(key, stamp - first)
    }
}

/// The letter of the line that a message went over.
fn letter(view: &View<'_>) -> &'static str {
    match view.line() {
        Line::A => "A",
        Line::B => "B",
    }
}
