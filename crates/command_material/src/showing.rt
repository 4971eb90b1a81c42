//! Messages that differ, decoded one above the other.

use bench_compare::{Compared, Difference, Kept, Part, write_channel, write_totals};
use bench_decode::{Place, Shown, TextLine, write_message};
use std::alloc::{AllocError, Global};
use std::io::Write;
use text_lines::WriteFault;

/// The columns of a line up to which it tells the message's number in its file, and up to which its time.
const NUMBER: usize = 7;

const TIME: usize = 21;

/// Writes what was compared for people: behind the lines of a channel that differs the two messages, decoded one above
/// the other, and what differs marked in a line below them, in red where that is wanted.
pub(crate) fn write_shown<W: Write>(
    alloc: Global,
    compared: &[Compared],
    colored: bool,
    out: &mut W,
) -> Result<(), WriteFault> {
    for channel in compared {
        write_channel(alloc, channel, out)?;
        if let Some(difference) = &channel.difference {
            write_both(alloc, channel.channel, difference, colored, out)?;
        }
    }
    write_totals(compared, out)
}

/// Writes the messages that differ, and marks below them where both are there.
fn write_both<W: Write>(
    alloc: Global,
    channel: u16,
    difference: &Difference,
    colored: bool,
    out: &mut W,
) -> Result<(), WriteFault> {
    let first = line_of(alloc, channel, difference, &difference.first)?;
    let second = line_of(alloc, channel, difference, &difference.second)?;
    write_line(b"  A ", first.as_slice(), out)?;
    write_line(b"  B ", second.as_slice(), out)?;
    if difference.first.is_some() && difference.second.is_some() {
        let marks = marks_of(alloc, difference.part, first.as_slice(), second.as_slice())?;
        write_marks(marks.as_slice(), colored, out)?;
    }
    Ok(())
}

/// Writes the marks, in red where that is wanted.
fn write_marks<W: Write>(marks: &[u8], colored: bool, out: &mut W) -> Result<(), WriteFault> {
    if !colored {
        return write_line(b"    ", marks, out);
    }
    out.write_all(b"\x1b[31m")?;
    write_line(b"    ", marks, out)?;
    out.write_all(b"\x1b[0m")?;
    Ok(())
}

/// Writes a line behind a label, where there is one.
fn write_line<W: Write>(label: &[u8], line: &[u8], out: &mut W) -> Result<(), WriteFault> {
    if line.is_empty() {
        return Ok(());
    }
    out.write_all(label)?;
    out.write_all(line)?;
    out.write_all(b"\n")?;
    Ok(())
}

/// A message as a line, without its end; no byte where there is no message.
fn line_of(
    alloc: Global,
    channel: u16,
    difference: &Difference,
    message: &Option<Kept>,
) -> Result<Vec<u8>, WriteFault> {
    let mut text = Vec::new(alloc);
    let Some(message) = message else {
        return Ok(text);
    };
    let place = Place {
        number: message.number(),
        channel,
        in_channel: difference.number,
    };
    let mut line = TextLine::new(alloc, Shown::Plain)?;
    if write_message(&mut line, &mut text, &place, &message.view()).is_err() {
        return Err(WriteFault::Memory);
    }
    text.extend_from_slice(line.text())?;
    let ended = match text.as_slice().last() {
        Some(last) => *last == b'\n',
        None => false,
    };
    if ended {
        text.truncate(text.len() - 1);
    }
    Ok(text)
}

/// Whether two lines have the same at a place.
fn is_same(first: &[u8], second: &[u8], place: usize) -> bool {
    match (first.get(place), second.get(place)) {
        (Some(one), Some(other)) => *one == *other,
        (None, None) => true,
        _ => false,
    }
}

/// Whether a line has something to read at a place.
fn is_shown(line: &[u8], place: usize) -> bool {
    match line.get(place) {
        Some(byte) => *byte != b' ',
        None => false,
    }
}

/// Whether a place of two lines is marked. Numbers in the file do not count, and times are marked, all of them, where
/// it is their distances from the first of the channel that differ; of the rest each byte that differs.
fn is_marked(part: Part, first: &[u8], second: &[u8], place: usize) -> bool {
    if place < NUMBER {
        return false;
    }
    if place < TIME {
        return part == Part::Stamp && (is_shown(first, place) || is_shown(second, place));
    }
    !is_same(first, second, place)
}

/// A mark below each byte of two lines that is marked, up to the last of them.
fn marks_of(alloc: Global, part: Part, first: &[u8], second: &[u8]) -> Result<Vec<u8>, AllocError> {
    let mut marks = Vec::new(alloc);
    let mut end = 0;
    for place in 0..first.len().max(second.len()) {
        if is_marked(part, first, second, place) {
            marks.push(b'^')?;
            end = marks.len();
        } else {
            marks.push(b' ')?;
        }
    }
    marks.truncate(end);
    Ok(marks)
}
