//! What is wrong with a word of scripts, jobs, rules and dictionaries.
ghost use Rattle.std.specs.Prelude.{◌≤◌};

use judge_rules::read_time;
use numerals::spelled;
use signal_dictionary::{decimal_of, is_label};

/// What is wrong with a word.
#[derive(Clone, Copy, Debug, PartialEq, Eq)]
pub enum Slip {
    /// It is none of the words that may stand there.
    Word,
    /// It is not written as a number, or as a data word.
    Form,
    /// Its number is out of its range.
    Range,
}

/// The last tick that a job or a time of a rule may name: 2^47.
pub(crate) const LAST_TICK: u64 = 140_737_488_355_328;

/// Whether a word is a time with its unit, at most 2^47 ticks.
pub(crate) fn time_slip(word: &[u8]) -> Option<Slip> {
    match read_time(word) {
        None => Some(Slip::Form),
        Some(tick) if tick > LAST_TICK => Some(Slip::Range),
        Some(_) => None,
    }
}

/// Whether a word is a number from `least` to `greatest`, of at most so many decimal digits.
pub(crate) fn number_slip(word: &[u8], digits: usize, least: u64, greatest: u64) -> Option<Slip>
    requires { digits ≤ 15 }
{
    match spelled(10, 1, digits, word) {
        None => Some(Slip::Form),
        Some(number) if number < least || greatest < number => Some(Slip::Range),
        Some(_) => None,
    }
}

/// That a word is none of these, where it is none.
pub(crate) fn word_slip(word: &[u8], words: &[&str]) -> Option<Slip> {
    for one in words {
        if one.as_bytes() == word {
            return None;
        }
    }
    Some(Slip::Word)
}

/// Whether a word is one of exactly so many hexadecimal digits, and not all of them zero where that is asked.
pub(crate) fn hexadecimal_slip(word: &[u8], digits: usize, not_zero: bool) -> Option<Slip>
    requires { digits ≤ 15 }
{
    match spelled(16, digits, digits, word) {
        None => Some(Slip::Form),
        Some(0) if not_zero => Some(Slip::Range),
        Some(_) => None,
    }
}

/// The same where `*` stands for any number.
pub(crate) fn choice_slip(word: &[u8], least: u64, greatest: u64) -> Option<Slip> {
    if word == b"*".as_slice() {
        return None;
    }
    number_slip(word, 7, least, greatest)
}

/// What is wrong with a decimal, of which one may not be zero.
pub(crate) fn decimal_slip(word: &[u8], not_zero: bool) -> Option<Slip> {
    match decimal_of(word) {
        Err(_) => Some(Slip::Form),
        Ok(decimal) if not_zero && decimal.digits == 0 => Some(Slip::Range),
        Ok(_) => None,
    }
}

/// What is wrong with a value, which is a decimal or a label.
pub(crate) fn value_slip(word: &[u8]) -> Option<Slip> {
    if is_label(word) {
        None
    } else {
        decimal_slip(word, false)
    }
}

/// What is wrong with a decimal that may not be below zero.
pub(crate) fn step_slip(word: &[u8]) -> Option<Slip> {
    match decimal_of(word) {
        Err(_) => Some(Slip::Form),
        Ok(decimal) if decimal.negative && decimal.digits != 0 => Some(Slip::Range),
        Ok(_) => None,
    }
}

/// What is wrong with a number and its label: a label before a number.
pub(crate) fn naming_slip(word: &[u8]) -> Option<Slip> {
    let mut parts = word.splitn(2, |byte| *byte == b'=');
    let number = parts.next()?;
    match parts.next() {
        Some(label) if is_label(label) => number_slip(number, 7, 0, 9_999_999),
        _ => Some(Slip::Word),
    }
}

/// Whether a word is a mode code with a data word that the controller sends: 17, or 20 to 31.
pub(crate) fn receive_code_slip(word: &[u8]) -> Option<Slip> {
    match number_slip(word, 7, 17, 31) {
        None if matches!(spelled(10, 1, 7, word), Some(18 | 19)) => Some(Slip::Range),
        slip => slip,
    }
}

/// Whether a word is `....`, four hexadecimal digits, or these with a slash and the four of a mask.
pub(crate) fn datum_slip(word: &[u8]) -> Option<Slip> {
    if word == b"....".as_slice() {
        return None;
    }
    let (value, behind) = word.split_at(word.len().min(4));
    match behind.split_first() {
        None => hexadecimal_slip(value, 4, false),
        Some((b'/', mask)) => hexadecimal_slip(value, 4, false).or(hexadecimal_slip(
            mask, 4, false,
        )),
        Some(_) => Some(Slip::Form),
    }
}
