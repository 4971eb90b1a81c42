//! The words of a text, one after the other.
ghost use Rattle.std.specs.Option.{option_copied};
ghost use Rattle.std.specs.Prelude.{◌≡◌, [], ◌∷◌, drop, slice_get, MatchOption, if◌then◌else◌, map};
ghost use Rattle.text_lines.specs.Words.{begins_with, behind_word, first_word, from_word, is_comment, meaning, words};

use crate::parting::{len_before, split_before};
use std::marker::Model;

/// The words that are left of a text. Spaces part them.
#[derive(Drop)]
pub struct Words<'a> {
    rest: &'a [u8],
}

impl<'a> Model for Words<'a> {
    ghost use Rattle.std.specs.Prelude.{List, ℕ};
    ghost use Rattle.text_lines.specs.Words.{words};

    ghost Value = { List (List ℕ) };

    ghost view = { λ w. words w.rest.now };
}

impl<'a> Words<'a> {
    /// The words of the text.
    pub fn of(text: &'a [u8]) -> Words<'a>
        ensures { result ≡ words text.now }
    {
        Words { rest: text }
    }

    /// The next word, if one is left.
    pub fn next(&mut self) -> Option<&'a [u8]>
        ensures word { option_copied result ≡ slice_get self.old 0 }
        ensures rest { self.new ≡ drop 1 self.old }
    {
        match next_word(self.rest) {
            Some((word, rest)) => {
                self.rest = rest;
                Some(word)
            }
            None => None,
        }
    }

    /// Takes the next word where it is this one.
    pub fn takes(&mut self, keyword: &[u8]) -> bool
        ensures answer { result ≡ begins_with keyword.now self.old }
        ensures rest { self.new ≡ (if result then drop 1 self.old else self.old) }
    {
        match next_word(self.rest) {
            Some((word, rest)) => {
                if word == keyword {
                    self.rest = rest;
                    return true;
                }
                false
            }
            None => false,
        }
    }
}

/// The first word of a text, which spaces alone part from the next, and what stands behind it; nothing where no word is
/// left.
pub fn next_word(text: &[u8]) -> Option<(&[u8], &[u8])>
    ensures { MatchOption result (words text.now ≡ []) (λ x. words text.now ≡ x.0.now ∷ words x.1.now) }
{
    let text = from_word(text);
    if text.is_empty() {
        return None;
    }
    Some(text.split_at(len_before(text, b' ')))
}

/// Whether a word begins a comment: with `#`.
pub fn is_comment(word: &[u8]) -> bool
    ensures { result ≡ is_comment word.now }
{
    word.first() == Some(&b'#')
}

/// What stands beside the first of these words that is this one; none where none of them is.
pub fn meaning<T: Copy>(rows: &[(&[u8], T)], word: &[u8]) -> Option<T>
    ensures { result ≡ meaning (map (λ row. (row.0.now, row.1)) rows.now) word.now }
{
    match rows.split_first() {
        None => None,
        Some((first, rest)) => {
            if word == first.0 {
                Some(first.1)
            } else {
                meaning(rest, word)
            }
        }
    }
}

/// What is left from the next word on.
pub fn from_word(text: &[u8]) -> &[u8]
    ensures { result.now ≡ from_word text.now }
{
    let mut rest = text;
    while let Some((first, tail)) = rest.split_first() {
        if *first != b' ' {
            break;
        }
        rest = tail;
    }
    rest
}

/// The first word of a line, empty where there is none, and what stands behind the space that ends it.
pub fn split_word(line: &[u8]) -> (&[u8], &[u8])
    ensures word { result.0.now ≡ first_word line.now }
    ensures rest { result.1.now ≡ behind_word line.now }
{
    split_before(from_word(line), b' ')
}
