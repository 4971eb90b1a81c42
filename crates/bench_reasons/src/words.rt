//! Places in a line of a job, whose words spaces alone part.

use text_lines::{from_word, split_word};

/// What is left of a line from the word on that has so many in front of it.
pub fn from_nth_word(line: &[u8], before: u64) -> &[u8] {
    let mut rest = line;
    for _ in 0..before {
        let (_, behind) = split_word(rest);
        rest = behind;
    }
    from_word(rest)
}

/// The column of a line, counted from 1, from which on so much of it is left.
pub fn column_of(line: &[u8], rest: &[u8]) -> u64 {
    (line.len().saturating_sub(rest.len()) as u64).saturating_add(1)
}
