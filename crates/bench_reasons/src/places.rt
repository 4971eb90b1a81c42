//! Lines and places of a text.

use text_lines::split_line;

/// A place in a text: lines count from 1 by line feeds, columns from 1 by bytes.
#[derive(Clone, Copy, Debug, PartialEq, Eq)]
pub struct Place {
    pub line: u64,
    pub column: u64,
}

/// The bytes of a line of a text, counted from 1, without its line feed; nothing where there is no such line.
pub fn line_of(text: &[u8], number: u64) -> &[u8] {
    let mut rest = text;
    for _above in 1..number {
        if rest.is_empty() {
            return rest;
        }
        rest = split_line(rest).1;
    }
    split_line(rest).0
}

/// How many bytes of a text are left at a place of it, those of the place among them.
pub fn left_at(text: &[u8], place: Place) -> usize {
    let mut lines = 1u64;
    let mut columns = 1u64;
    let mut left = text.len();
    for byte in text {
        if lines > place.line || (lines == place.line && columns >= place.column) {
            return left;
        }
        if *byte == b'\n' {
            lines = lines.saturating_add(1);
            columns = 1;
        } else {
            columns = columns.saturating_add(1);
        }
        left = left.saturating_sub(1);
    }
    0
}

/// The place of a text at which so many bytes of it are left.
pub fn place_at(text: &[u8], left: usize) -> Place {
    let (before, _) = text.split_at(text.len().saturating_sub(left));
    let mut place = Place { line: 1, column: 1 };
    for byte in before {
        if *byte == b'\n' {
            place.line = place.line.saturating_add(1);
            place.column = 1;
        } else {
            place.column = place.column.saturating_add(1);
        }
    }
    place
}

/// What is left of a text where so many bytes are.
pub fn last_of(text: &[u8], left: usize) -> &[u8] {
    let (_, last) = text.split_at(text.len().saturating_sub(left));
    last
}
