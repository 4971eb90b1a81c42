//! Words as values.

use serde_json::Value;
use std::alloc::{AllocError, Global};
use std::str;

/// The keys of values that are hexadecimal digits, which stay text.
const HEXADECIMAL: &[&str] = &["type", "flags", "block", "gaps"];

/// Whether the values of a key are hexadecimal digits.
fn is_hexadecimal(key: &[u8]) -> bool {
    HEXADECIMAL.iter().any(|name| name.as_bytes() == key)
}

/// Whether a word is a number: digits, perhaps behind a minus sign, and perhaps with a point among them.
fn is_number(word: &[u8]) -> bool {
    let digits = match word.split_first() {
        Some((first, rest)) if *first == b'-' => rest,
        _ => word,
    };
    !digits.is_empty()
        && digits
            .iter()
            .all(|byte| (b'0'..=b'9').contains(byte) || *byte == b'.')
}

/// A text as a value; bytes that are no text are none.
pub(crate) fn text_of(alloc: Global, word: &[u8]) -> Result<Value, AllocError> {
    match str::from_utf8(word) {
        Ok(text) => Value::try_from_str(alloc, text),
        Err(_) => Ok(Value::Null),
    }
}

/// Whether a number may be one of JSON by its first digit, which is 0 in 0 alone.
fn begins_well(word: &[u8]) -> bool {
    match word.split_first() {
        Some((first, rest)) => *first != b'0' || rest.is_empty(),
        None => false,
    }
}

/// A number as a value; text where it is none.
fn number_of(alloc: Global, word: &[u8]) -> Result<Value, AllocError> {
    let Ok(text) = str::from_utf8(word) else {
        return Ok(Value::Null);
    };
    match text.parse::<u64>() {
        Ok(number) if begins_well(word) => Ok(Value::from(number)),
        _ => decimal_of(alloc, text),
    }
}

/// The same of one that is no number of digits alone.
fn decimal_of(alloc: Global, text: &str) -> Result<Value, AllocError> {
    match Value::from_str(alloc, text) {
        Ok(value) => Ok(value),
        Err(error) => {
            if error.is_memory() {
                return Err(AllocError);
            }
            Value::try_from_str(alloc, text)
        }
    }
}

/// The value of a key that a word spells: a number, text of hexadecimal digits or other text, and nothing for `-`.
pub(crate) fn value_of(alloc: Global, key: &[u8], word: &[u8]) -> Result<Value, AllocError> {
    if word == b"-".as_slice() {
        Ok(Value::Null)
    } else if is_number(word) && !is_hexadecimal(key) {
        number_of(alloc, word)
    } else {
        text_of(alloc, word)
    }
}
