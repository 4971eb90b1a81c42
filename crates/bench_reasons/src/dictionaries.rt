//! Why a line of a dictionary of signals is refused.

use crate::fault::RuleFault;
use crate::lines::{Found, find, found_in, reason_or_more};
use crate::places::line_of;
use crate::reason::Reason;
use crate::slips::Slip;
use crate::symbols::Symbol;
use numerals::spelled;
use std::alloc::{AllocError, Global};
use text_lines::{is_comment, next_line, next_word};

/// How many numbers of a signal may have names.
const MOST_NAMINGS: usize = 64;

/// Why a line of a dictionary, counted from 1, is refused; none where that is no fault of it.
pub fn dictionary_reason(
    alloc: Global,
    text: &[u8],
    number: u64,
    fault: RuleFault,
) -> Result<Option<Reason>, AllocError> {
    let line = line_of(text, number);
    let found = match fault {
        RuleFault::Word => find(alloc, line, Symbol::Signal, Slip::Word)?,
        RuleFault::Number => find(alloc, line, Symbol::Signal, Slip::Form)?,
        RuleFault::Range => find(alloc, line, Symbol::Signal, Slip::Range)?
            .or(turned(line))
            .or(uneven(line))
            .or(numbered_twice(line))
            .or(named_twice(text, number, line)),
    };
    let more = one_signal_more(number, line);
    Ok(reason_or_more(number, fault, found, more))
}

/// What is left of a line behind the first of its words that is this one, from its third word on.
fn behind_word<'a>(line: &'a [u8], name: &[u8]) -> Option<&'a [u8]> {
    let (_, rest) = next_word(line)?;
    let (_, rest) = next_word(rest)?;
    let mut rest = rest;
    for _ in 0..line.len() {
        let (word, behind) = next_word(rest)?;
        if word == name {
            return Some(behind);
        }
        rest = behind;
    }
    None
}

/// The bits of a line.
fn bits_in(line: &[u8]) -> Option<(u64, u64)> {
    let behind = behind_word(line, b"bits")?;
    let (high, behind) = next_word(behind)?;
    let (low, _) = next_word(behind)?;
    Some((spelled(10, 1, 7, high)?, spelled(10, 1, 7, low)?))
}

/// The lower bit, where it is above the upper one.
fn turned(line: &[u8]) -> Option<Found<'_>> {
    let (high, low) = bits_in(line)?;
    if low <= high {
        return None;
    }
    let (_, behind) = next_word(behind_word(line, b"bits")?)?;
    let (word, behind) = next_word(behind)?;
    let why = "the lower bit is above the upper one";
    Some(found_in(
        line,
        word,
        behind,
        why,
        "write the upper bit first, as in bits 15 8",
    ))
}

/// The word of decimal digits, where the width is no multiple of four.
fn uneven(line: &[u8]) -> Option<Found<'_>> {
    let (high, low) = bits_in(line)?;
    let behind = behind_word(line, b"bcd")?;
    if high.saturating_sub(low) % 4 == 3 {
        return None;
    }
    let (front, _) = line.split_at(line.len().saturating_sub(behind.len()));
    let (_, word) = front.split_at(front.len().saturating_sub(3));
    let why = "the bits are no multiple of four";
    Some(found_in(
        line,
        word,
        behind,
        why,
        "a decimal digit has four bits, as in bits 7 0",
    ))
}

/// The number that a word gives a name.
fn number_of(word: &[u8]) -> Option<u64> {
    let number = word.split(|byte| *byte == b'=').next()?;
    spelled(10, 1, 7, number)
}

/// Whether a number has a name in front of so many bytes that are left of a line's names.
fn is_named(names: &[u8], left: usize, number: u64) -> bool {
    let mut rest = names;
    for _ in 0..names.len() {
        let Some((word, behind)) = next_word(rest) else {
            return false;
        };
        if word.len().saturating_add(behind.len()) <= left {
            return false;
        }
        if number_of(word) == Some(number) {
            return true;
        }
        rest = behind;
    }
    false
}

/// The number that has a second name, or is one too many.
fn numbered_twice(line: &[u8]) -> Option<Found<'_>> {
    let names = behind_word(line, b"names")?;
    let mut rest = names;
    for place in 0..names.len() {
        let (word, behind) = next_word(rest)?;
        let number = number_of(word)?;
        if is_named(names, word.len().saturating_add(behind.len()), number) {
            let why = "this number has a name already";
            return Some(found_in(line, word, behind, why, "name each number once"));
        }
        if place == MOST_NAMINGS {
            let why = "this is the sixty-fifth number";
            return Some(found_in(line, word, behind, why, "name at most 64 numbers"));
        }
        rest = behind;
    }
    None
}

/// The name of the signal of a line, and what is left behind it.
fn name_in(line: &[u8]) -> Option<(&[u8], &[u8])> {
    let (first, rest) = next_word(line)?;
    if is_comment(first) {
        return None;
    }
    next_word(rest)
}

/// The name of a line, where one above has it too.
fn named_twice<'a>(text: &[u8], number: u64, line: &'a [u8]) -> Option<Found<'a>> {
    let (name, behind) = name_in(line)?;
    let mut rest = text;
    for _ in 1..number {
        let (above, left) = next_line(rest)?;
        if let Some((other, _)) = name_in(above) {
            if other == name {
                let why = "a signal above has this name";
                return Some(found_in(line, name, behind, why, "name each signal once"));
            }
        }
        rest = left;
    }
    None
}

/// The first signal of a text that has too many.
fn one_signal_more(number: u64, line: &[u8]) -> Reason {
    Reason::of_line(
        number,
        line,
        "this is the ten-thousand-and-first signal",
        "share the signals out over several texts",
    )
}
