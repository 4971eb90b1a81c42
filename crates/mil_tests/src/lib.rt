//! Tests of the crates whose names begin with `mil_`, of `numerals` and of `text_lines`. They try words, status
//! words, mode codes, messages, planned faults, host actions, terminals, the trunk, the bus as its monitor sees it,
//! and the numbers, lines and words of a text. What is expected is worked out by hand from the rules, or stands in
//! the standard's own tables.
//!
//! It may know: the public calls of the crates that it tests and of those below them, and `test_values`. It is
//! tests alone, and has no wrong bodies.
#![tactic(auto)]

#[cfg(test)]
mod tests;
