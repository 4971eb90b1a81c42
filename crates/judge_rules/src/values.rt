//! Values in the words of a rule.
ghost use Rattle.judge_rules.specs.Values as spec;
ghost use Rattle.std.specs.Prelude.{◌≡◌, ◌≤◌, Ok, Err, IfOk, MatchResult, drop, length, ◌∷◌};

use crate::fault::{RuleFault, both};
use crate::rules::{Bounds, Datum};
use arrayvec::ArrayVec;
use mil_word::fields::MOST_WORDS;
use numerals::spelled;
use text_lines::Words;

/// The number that a word spells, within a range.
fn number_within(word: &[u8], low: u32, high: u32) -> Result<u32, RuleFault>
    ensures value { result ≡ spec.number_of low high word.now }
    ensures range { IfOk result (λ n. (low ≤ n) × (n ≤ high)) }
{
    let value = spelled(10, 1, 7, word).ok_or(RuleFault::Number)?;
    if u64::from(low) <= value && value <= u64::from(high) {
        Ok(value as u32)
    } else {
        Err(RuleFault::Range)
    }
}

/// A number of one to seven digits as the next word, within a range.
pub fn read_number(words: &mut Words<'_>, low: u32, high: u32) -> Result<u32, RuleFault>
    ensures value { result ≡ spec.number_in low high words.old }
    ensures range { IfOk result (λ n. (low ≤ n) × (n ≤ high)) }
    ensures rest { words.new ≡ drop 1 words.old }
{
    match words.next() {
        Some(word) => number_within(word, low, high),
        None => Err(RuleFault::Word),
    }
}

/// A number or `*` as the next word.
pub(crate) fn read_choice(words: &mut Words<'_>, low: u8, high: u8) -> Result<Option<u8>, RuleFault>
    ensures value { result ≡ spec.choice_in low high words.old }
    ensures rest { words.new ≡ drop 1 words.old }
{
    let Some(word) = words.next() else {
        return Err(RuleFault::Word);
    };
    if word == b"*".as_slice() {
        return Ok(None);
    }
    match number_within(word, u32::from(low), u32::from(high)) {
        Ok(number) => Ok(Some(number as u8)),
        Err(fault) => Err(fault),
    }
}

/// The word that four hexadecimal digits spell.
fn word_value(word: &[u8]) -> Result<u16, RuleFault>
    ensures { result ≡ spec.word_of word.now }
{
    match spelled(16, 4, 4, word) {
        Some(value) => Ok(value as u16),
        None => Err(RuleFault::Number),
    }
}

/// Four hexadecimal digits as the next word.
pub(crate) fn read_word(words: &mut Words<'_>) -> Result<u16, RuleFault>
    ensures value { result ≡ spec.word_in words.old }
    ensures rest { words.new ≡ drop 1 words.old }
{
    match words.next() {
        Some(word) => word_value(word),
        None => Err(RuleFault::Word),
    }
}

/// The least and the greatest number as the next two words.
pub(crate) fn read_bounds(words: &mut Words<'_>, most: u32) -> Result<Bounds, RuleFault>
    ensures value { result ≡ spec.bounds_in most words.old }
    ensures rest { words.new ≡ drop 2 words.old }
{
    let low = read_number(words, 0, most);
    let high = read_number(words, 0, most);
    let (low, high) = both(low, high)?;
    if low <= high {
        Ok(Bounds { low, high })
    } else {
        Err(RuleFault::Range)
    }
}

/// The value and the mask that a word spells: `....`, four digits, or four digits, a slash and four more.
#[tactic(auto, unfolding(crate::specs::Values::datum_of))]
fn datum(word: &[u8]) -> Result<Datum, RuleFault>
    ensures { result ≡ spec.datum_of word.now }
{
    if word == b"....".as_slice() {
        return Ok(Datum { value: 0, mask: 0 });
    }
    let (value, mask) = if word.len() == 9 && word[4] == b'/' {
        both(word_value(&word[..4]), word_value(&word[5..]))?
    } else {
        (word_value(word)?, 0xFFFF)
    };
    Ok(Datum { value, mask })
}

/// The fault of words, this one and those that are left, that are too many to be data words: one of them may spell
/// none.
fn fault_of_many(first: &[u8], words: &mut Words<'_>) -> RuleFault
    ensures { result ≡ spec.many_fault (first.now ∷ words.old) }
{
    if let Err(fault) = datum(first) {
        return fault;
    }
    while let Some(word) = words.next() {
        if let Err(fault) = datum(word) {
            return fault;
        }
    }
    RuleFault::Range
}

/// Data words to the end, at most 32.
pub(crate) fn read_data(words: &mut Words<'_>) -> Result<ArrayVec<Datum, 32>, RuleFault>
    ensures { MatchResult result (λ found. spec.data_in words.old ≡ Ok found.items)
        (λ f. spec.data_in words.old ≡ Err f) }
{
    let mut found = ArrayVec::new();
    while let Some(word) = words.next() {
        if found.len() == usize::from(MOST_WORDS) {
            return Err(fault_of_many(word, words));
        }
        let datum = datum(word)?;
        found.push(datum);
    }
    Ok(found)
}
