//! Why a line of rules is refused.

use crate::fault::RuleFault;
use crate::lines::{Found, find, found_in, reason_or_more};
use crate::places::line_of;
use crate::reason::Reason;
use crate::rule_symbols::behind_check_word;
use crate::slips::{Slip, word_slip};
use crate::symbols::Symbol;
use crate::walk::text_of;
use judge_rules::read_time;
use numerals::spelled;
use std::alloc::{AllocError, Global};
use text_lines::next_word;

/// How many data words a check may have.
const MOST_WORDS: usize = 32;

/// Why a line of rules, counted from 1, is refused; none where that is no fault of it.
pub fn rule_reason(
    alloc: Global,
    text: &[u8],
    number: u64,
    fault: RuleFault,
) -> Result<Option<Reason>, AllocError> {
    let line = line_of(text, number);
    let found = match fault {
        RuleFault::Word => word_at_fault(alloc, line)?,
        RuleFault::Number => find(alloc, line, Symbol::Rule, Slip::Form)?,
        RuleFault::Range => find(alloc, line, Symbol::Rule, Slip::Range)?
            .or(turned(line))
            .or(turned_values(line))
            .or(turned_times(line))
            .or(too_many(line)),
    };
    let more = one_rule_more(number, line);
    Ok(reason_or_more(number, fault, found, more))
}

/// The word of a line that may not stand there, is left over, or is missing. Where a selector has a number less than it
/// takes, so that the name of the check stands in the place of the number and the check is missing, it is the name.
fn word_at_fault(alloc: Global, line: &[u8]) -> Result<Option<Found<'_>>, AllocError> {
    if next_word(line).is_none() {
        return Ok(Some(Found {
            word: b"".as_slice(),
            column: 1,
            why: "no rule stands above the end of the text",
            remedy: "write a rule a line, as expect any ok",
        }));
    }
    let found = find(alloc, line, Symbol::Rule, Slip::Word)?;
    let Some(missing) = found else {
        return Ok(whole_not_alone(line));
    };
    if !missing.word.is_empty() {
        return Ok(found);
    }
    match find(alloc, line, Symbol::Rule, Slip::Form)? {
        Some(name) if behind_check_word(text_of(name.word)).is_some() => Ok(Some(Found {
            word: name.word,
            column: name.column,
            why: "a check begins here, and the selector in front of it has a number less than it takes",
            remedy: name.remedy,
        })),
        _ => Ok(found),
    }
}

/// The check `whole`, where it stands behind more than a channel and `any`.
fn whole_not_alone(line: &[u8]) -> Option<Found<'_>> {
    let behind = behind_one_of(line, &["whole"])?;
    let why = "whole is about packets, and stands behind any alone";
    let remedy = "write expect any whole, or expect channel N any whole, without line, from and to";
    Some(found_in(line, b"whole".as_slice(), behind, why, remedy))
}

/// What is left of a line behind the first of its words that is one of these.
fn behind_one_of<'a>(line: &'a [u8], names: &[&str]) -> Option<&'a [u8]> {
    let mut rest = line;
    for _ in 0..line.len() {
        let (word, behind) = next_word(rest)?;
        if word_slip(word, names).is_none() {
            return Some(behind);
        }
        rest = behind;
    }
    None
}

/// The greatest number of a check, where it is below the least.
pub(crate) fn turned(line: &[u8]) -> Option<Found<'_>> {
    let behind = behind_one_of(line, &["response", "period", "count"])?;
    let (low, behind) = next_word(behind)?;
    let (high, rest) = next_word(behind)?;
    if spelled(10, 1, 7, low)? <= spelled(10, 1, 7, high)? {
        return None;
    }
    let why = "the greatest number is below the least";
    let remedy = "write the least, and the greatest behind it, as in count 1 20";
    Some(found_in(line, high, rest, why, remedy))
}

/// A word that is below the one in front of it, of which so many bytes are left behind it.
fn below<'a>(line: &'a [u8], word: &'a [u8], behind: &[u8], remedy: &'static str) -> Found<'a> {
    let why = "the greatest is below the least";
    found_in(line, word, behind, why, remedy)
}

/// The greatest value of a data word, where it is below the least.
pub(crate) fn turned_values(line: &[u8]) -> Option<Found<'_>> {
    let (_, behind) = next_word(behind_one_of(line, &["word"])?)?;
    let (first, rest) = next_word(behind)?;
    let values = if first == b"step".as_slice() {
        rest
    } else {
        behind
    };
    let (low, behind) = next_word(values)?;
    let (high, rest) = next_word(behind)?;
    if spelled(16, 4, 4, low)? <= spelled(16, 4, 4, high)? {
        return None;
    }
    Some(below(
        line,
        high,
        rest,
        "write the least, and the greatest behind it, as in word 1 0000 00FF",
    ))
}

/// The last time of a rule, where it is below the first.
pub(crate) fn turned_times(line: &[u8]) -> Option<Found<'_>> {
    let (from, behind) = next_word(behind_one_of(line, &["from"])?)?;
    let (to, rest) = next_word(behind_one_of(behind, &["to"])?)?;
    if read_time(from)? <= read_time(to)? {
        return None;
    }
    Some(below(
        line,
        to,
        rest,
        "write the first time, and the last one behind it, as in from 3.0s to 3.3s",
    ))
}

/// The thirty-third data word of a check.
pub(crate) fn too_many(line: &[u8]) -> Option<Found<'_>> {
    let mut rest = behind_one_of(line, &["data"])?;
    for _ in 0..MOST_WORDS {
        let (_, behind) = next_word(rest)?;
        rest = behind;
    }
    let (word, behind) = next_word(rest)?;
    let why = "this is the thirty-third data word";
    let remedy = "a message has 1 to 32 data words";
    Some(found_in(line, word, behind, why, remedy))
}

/// The first rule of a text that has too many.
fn one_rule_more(number: u64, line: &[u8]) -> Reason {
    Reason::of_line(
        number,
        line,
        "this is the ten-thousand-and-first rule",
        "share the rules out over several texts",
    )
}
