//! Lines of a job by time or by command that are probably mistakes: never due, or behind four other faults.

use crate::mistakes::Mistake;
use std::alloc::{AllocError, Global};
use text_lines::{from_word, split_line};

/// How many bytes of a line are shown at most.
const SHOWN: usize = 72;

/// A line of a job, and what came of what it says.
#[derive(Clone, Copy, Debug)]
pub(crate) struct LineTrace {
    /// Its number in the text, counted from 1.
    pub(crate) number: u64,
    /// Whether it came to be due.
    pub(crate) is_due: bool,
    /// At how many messages its fault comes behind four others.
    pub(crate) left_out: u32,
    /// The first of these messages; 0 where there is none.
    pub(crate) first: u32,
}

impl LineTrace {
    /// A line before any message.
    pub(crate) fn new(number: u64, is_due: bool) -> LineTrace {
        LineTrace {
            number,
            is_due,
            left_out: 0,
            first: 0,
        }
    }

    /// It is due at the message of a number, and counts there or comes behind four other faults.
    pub(crate) fn note(&mut self, message: u32, counts: bool) {
        self.is_due = true;
        if !counts {
            if self.left_out == 0 {
                self.first = message;
            }
            self.left_out = self.left_out.saturating_add(1);
        }
    }

    /// What is probably a mistake in it, of which this is an excerpt; it has one where it was never due or left out.
    fn mistake(&self, words: String) -> Mistake {
        let line = self.number;
        if self.is_due {
            Mistake::LeftOut {
                line,
                first: self.first,
                more: self.left_out.saturating_sub(1),
                words,
            }
        } else {
            Mistake::NeverDue { line, words }
        }
    }
}

/// Whether a byte is blank at the end of a line.
fn is_blank(byte: u8) -> bool {
    byte == b' ' || byte == b'\t' || byte == b'\r'
}

/// A line without what is blank at its ends.
fn trimmed(line: &[u8]) -> &[u8] {
    let mut rest = from_word(line);
    while let Some((last, front)) = rest.split_last() {
        if !is_blank(*last) {
            break;
        }
        rest = front;
    }
    rest
}

/// A byte of a line as it is shown: what can't be printed as a question mark.
fn shown(byte: u8) -> char {
    match byte {
        b'\t' => ' ',
        0x20..=0x7E => char::from(byte),
        _ => '?',
    }
}

/// The beginning of a line that is shown of it: its first words that have so many bytes, or the first of so many bytes
/// where the first word is longer.
fn beginning(line: &[u8]) -> &[u8] {
    if line.len() <= SHOWN {
        return line;
    }
    let front = &line[..SHOWN];
    if is_blank(line[SHOWN]) {
        return trimmed(front);
    }
    match front.iter().rposition(|byte| is_blank(*byte)) {
        Some(end) => trimmed(&front[..end]),
        None => front,
    }
}

/// What a line says, as it is shown: of a long one its beginning.
fn excerpt(alloc: Global, line: &[u8]) -> Result<String, AllocError> {
    let line = trimmed(line);
    let front = beginning(line);
    let mut words = String::new(alloc);
    for byte in front {
        words.push(shown(*byte))?;
    }
    if front.len() < line.len() {
        words.push_str(" ..")?;
    }
    Ok(words)
}

/// A text without so many of its lines.
fn behind_lines(text: &[u8], count: u64) -> &[u8] {
    let mut rest = text;
    for _ in 0..count {
        let (_, behind) = split_line(rest);
        rest = behind;
    }
    rest
}

/// What is probably a mistake in these lines of a text, which stand by rising numbers. It fails for want of memory
/// alone.
pub(crate) fn odd_lines(
    alloc: Global,
    text: &[u8],
    lines: &[LineTrace],
) -> Result<Vec<Mistake>, AllocError> {
    let mut found = Vec::new(alloc);
    let mut rest = text;
    let mut at = 1u64;
    for line in lines {
        rest = behind_lines(rest, line.number.saturating_sub(at));
        at = line.number;
        if !line.is_due || line.left_out > 0 {
            let (first, _) = split_line(rest);
            found.push(line.mistake(excerpt(alloc, first)?))?;
        }
    }
    Ok(found)
}
