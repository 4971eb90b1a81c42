//! Lines and rows as objects.

use crate::objects::Object;
use std::alloc::{AllocError, Global};
use text_lines::{from_word, split_word};

/// A line of pairs of a key and its value as an object: `words` is followed by all words that are left, and a value
/// without a key is a `fault`.
pub(crate) fn object_of_line(alloc: Global, line: &[u8]) -> Result<Object, AllocError> {
    let mut object = Object::new(alloc);
    let mut rest = line;
    for _pair in 0..line.len() {
        if rest.is_empty() {
            return Ok(object);
        }
        let (key, behind) = split_word(rest);
        if key == b"words".as_slice() {
            object.add_words("words", behind)?;
            return Ok(object);
        }
        if behind.is_empty() {
            add_last(&mut object, key)?;
            return Ok(object);
        }
        let (value, others) = split_word(behind);
        object.add_word(key, value)?;
        rest = from_word(others);
    }
    Ok(object)
}

/// Adds the last word of a line that has no value: of a packet that it is skipped, of a skip its fault.
fn add_last(object: &mut Object, word: &[u8]) -> Result<(), AllocError> {
    if word == b"skipped".as_slice() {
        Ok(())
    } else {
        object.add_text("fault", word)
    }
}

/// What stands in front of the first comma, and what stands behind it.
fn split_cell(row: &[u8]) -> (&[u8], &[u8]) {
    let at = row.iter().position(|byte| *byte == b',');
    match at {
        Some(at) if at < row.len() => (&row[..at], &row[at + 1..]),
        _ => row.split_at(row.len()),
    }
}

/// A row of values as an object whose keys are those of a row of names; a cell without a value has none.
pub(crate) fn object_of_row(alloc: Global, names: &[u8], row: &[u8]) -> Result<Object, AllocError> {
    let mut object = Object::new(alloc);
    let (mut keys, mut cells) = (names, row);
    for _cell in 0..names.len() {
        if keys.is_empty() {
            return Ok(object);
        }
        let (key, other_keys) = split_cell(keys);
        let (cell, other_cells) = split_cell(cells);
        if !cell.is_empty() {
            object.add_word(key, cell)?;
        }
        keys = other_keys;
        cells = other_cells;
    }
    Ok(object)
}
