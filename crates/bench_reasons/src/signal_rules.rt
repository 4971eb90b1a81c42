//! Why a line of rules that may name signals is refused.

use crate::fault::RuleFault;
use crate::lines::{Found, find, found_in, reason_of};
use crate::places::line_of;
use crate::reason::Reason;
use crate::rules::{rule_reason, too_many, turned, turned_times, turned_values};
use crate::slips::{Slip, word_slip};
use crate::symbols::Symbol;
use signal_dictionary::decimal_of;
use signal_values::of_decimal;
use std::alloc::{AllocError, Global};
use text_lines::{next_line, next_word};

/// Why a line of rules that may name the signals of a dictionary, counted from 1, is refused; none where that is no
/// fault of it.
pub fn signal_rule_reason(
    alloc: Global,
    text: &[u8],
    dictionary: &[u8],
    number: u64,
    fault: RuleFault,
) -> Result<Option<Reason>, AllocError> {
    let line = line_of(text, number);
    let Some(behind) = behind_signal(line) else {
        return rule_reason(alloc, text, number, fault);
    };
    let found = match fault {
        RuleFault::Word => {
            find(alloc, line, Symbol::SignalRule, Slip::Word)?.or(unfit(line, behind))
        }
        RuleFault::Number => {
            find(alloc, line, Symbol::SignalRule, Slip::Form)?.or(no_decimal(line, behind))
        }
        RuleFault::Range => unknown(line, behind, dictionary)
            .or(find(alloc, line, Symbol::SignalRule, Slip::Range)?)
            .or(crossed(line, behind))
            .or(turned(line))
            .or(turned_values(line))
            .or(turned_times(line))
            .or(too_many(line)),
    };
    Ok(reason_of(number, found))
}

/// What stands behind the word `signal` of a line that has it in the place of a selector.
fn behind_signal(line: &[u8]) -> Option<&[u8]> {
    let (_, behind) = next_word(line)?;
    let mut rest = behind;
    for _ in 0..5 {
        let (word, behind) = next_word(rest)?;
        if word == b"signal".as_slice() {
            return Some(behind);
        }
        if word_slip(word, &["channel", "line", "from", "to"]).is_some() {
            return None;
        }
        let (_, behind) = next_word(behind)?;
        rest = behind;
    }
    None
}

/// The name of the check, where all words are those of a check, but of one for another kind of signal.
fn unfit<'a>(line: &'a [u8], behind: &'a [u8]) -> Option<Found<'a>> {
    let (_, behind) = next_word(behind)?;
    let (check, behind) = next_word(behind)?;
    if check == b"whole".as_slice() {
        let why = "whole is about packets, and stands behind any alone";
        let remedy =
            "write expect any whole, or expect channel N any whole, without line, from and to";
        return Some(found_in(line, check, behind, why, remedy));
    }
    let why = "this check is not one of this signal";
    let remedy =
        "value LOW HIGH and step MOST are those of a signal without names, value LABEL of one with names";
    Some(found_in(line, check, behind, why, remedy))
}

/// The first of two bounds of a value, where it is no decimal.
fn no_decimal<'a>(line: &'a [u8], behind: &'a [u8]) -> Option<Found<'a>> {
    let (_, behind) = next_word(behind)?;
    let (_, behind) = next_word(behind)?;
    let (low, behind) = next_word(behind)?;
    if decimal_of(low).is_ok() {
        return None;
    }
    let why = "this is not written as a number that may stand here";
    let remedy = "a value is a decimal, as -40 or 0.5, of 1 to 18 digits";
    Some(found_in(line, low, behind, why, remedy))
}

/// The name, where the dictionary does not have it.
fn unknown<'a>(line: &'a [u8], behind: &'a [u8], dictionary: &[u8]) -> Option<Found<'a>> {
    let (name, behind) = next_word(behind)?;
    if has_signal(dictionary, name) {
        return None;
    }
    let why = "the dictionary has no signal of this name";
    Some(found_in(line, name, behind, why, "name one of its signals"))
}

/// Whether a line of a dictionary gives a signal this name.
fn has_signal(dictionary: &[u8], name: &[u8]) -> bool {
    let mut rest = dictionary;
    for _ in 0..dictionary.len() {
        let Some((line, behind)) = next_line(rest) else {
            return false;
        };
        if is_of_name(line, name) {
            return true;
        }
        rest = behind;
    }
    false
}

/// Whether a line of a dictionary is that of a signal of this name.
fn is_of_name(line: &[u8], name: &[u8]) -> bool {
    let Some((first, behind)) = next_word(line) else {
        return false;
    };
    match next_word(behind) {
        Some((second, _)) => first == b"signal".as_slice() && second == name,
        None => false,
    }
}

/// The greatest value, where it is below the least.
fn crossed<'a>(line: &'a [u8], behind: &'a [u8]) -> Option<Found<'a>> {
    let (_, behind) = next_word(behind)?;
    let (check, behind) = next_word(behind)?;
    let (low, behind) = next_word(behind)?;
    let (high, behind) = next_word(behind)?;
    if check != b"value".as_slice() || is_in_order(low, high) {
        return None;
    }
    let why = "the greatest value is below the least";
    let remedy = "write the least, and the greatest behind it, as in value -40 85.5";
    Some(found_in(line, high, behind, why, remedy))
}

/// Whether one decimal is at most another; so it is of what is none.
fn is_in_order(low: &[u8], high: &[u8]) -> bool {
    match (decimal_of(low), decimal_of(high)) {
        (Ok(low), Ok(high)) => of_decimal(low).is_at_most(of_decimal(high)),
        _ => true,
    }
}
