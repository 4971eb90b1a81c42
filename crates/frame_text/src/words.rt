//! Numbers, periods and data words.

ghost use Rattle.frame_text.specs.Reading.{ReadsTokens, IsFault, IsOfText};
ghost use Rattle.frame_text.specs.Tokens.{tokens};
ghost use Rattle.frame_text.specs.Words.{unspelled, number_at, number_within, period_at};
ghost use Rattle.frame_text.specs.Words.{words_at, counted, bracketed_at, optional_at};
ghost use Rattle.numerals.specs.Numerals.{data_word_of, number_of};
ghost use Rattle.std.specs.Prelude.{◌≡◌, ◌<◌, ◌≤◌, ◌++◌, ◌∷◌, [], length, take, IfOk, option_map, IfErr};

use crate::faults::{Cause, TextFault};
use crate::keywords::{is, is_word, misplaced};
use crate::tokens::{after_token, fault, first_token, next};
use arrayvec::ArrayVec;
use numerals::spelled;

/// Data words as far as they count: a message with more than 32 is refused.
pub type DataWords = ArrayVec<u16, 33>;

// The number that a token spells.
fn number_in(word: &[u8]) -> Option<u32>
    ensures { result ≡ number_of word.now }
{
    let value = spelled(10, 1, 7, word)?;
    Some(value as u32)
}

// The data word that a token spells.
fn data_word_in(word: &[u8]) -> Option<u16>
    ensures { result ≡ data_word_of word.now }
{
    let value = spelled(16, 4, 4, word)?;
    Some(value as u16)
}

// The fault of the first token of the text, which should have spelled something.
fn unspelled_fault(word: &[u8], text: &[u8]) -> TextFault
    ensures is { IsFault (unspelled word.now) (tokens text.now) result }
    ensures of_text { IsOfText result }
{
    let cause = if is_word(word) {
        Cause::Number
    } else {
        misplaced(word)
    };
    fault(cause, text)
}

/// A number of one to seven digits.
#[tactic(auto, unfolding(crate::specs::Words::number_at))]
pub fn number(text: &[u8]) -> Result<(u32, &[u8]), TextFault>
    ensures tree { ReadsTokens (λ x. (x.0, tokens x.1.now)) result (number_at (tokens text.now)) }
    ensures fewer { IfOk result (λ x. length (tokens x.1.now) < length (tokens text.now)) }
    ensures of_text { IfErr result (λ e. IsOfText e) }
{
    let (word, rest) = first_token(text)?;
    match number_in(word) {
        Some(n) => Ok((n, rest)),
        None => Err(unspelled_fault(word, text)),
    }
}

/// A number from `low` to `high`.
#[tactic(auto, unfolding(crate::specs::Words::number_within))]
pub fn number_in_range(text: &[u8], low: u32, high: u32) -> Result<(u32, &[u8]), TextFault>
    ensures tree { ReadsTokens (λ x. (x.0, tokens x.1.now)) result (number_within low high (tokens text.now)) }
    ensures fewer { IfOk result (λ x. length (tokens x.1.now) < length (tokens text.now)) }
    ensures of_text { IfErr result (λ e. IsOfText e) }
    ensures within { IfOk result (λ x. (low ≤ x.0) × (x.0 ≤ high)) }
{
    let (n, rest) = number(text)?;
    if n < low || high < n {
        return Err(fault(Cause::Range, text));
    }
    Ok((n, rest))
}

/// A period: a number of µs, a multiple of 100 from 100 to 6,553,500. The answer is in hundreds of µs.
#[tactic(auto, unfolding(crate::specs::Words::period_at))]
pub fn period(text: &[u8]) -> Result<(u16, &[u8]), TextFault>
    ensures tree { ReadsTokens (λ x. (x.0, tokens x.1.now)) result (period_at (tokens text.now)) }
    ensures fewer { IfOk result (λ x. length (tokens x.1.now) < length (tokens text.now)) }
    ensures of_text { IfErr result (λ e. IsOfText e) }
{
    let (micros, rest) = number_in_range(text, 100, 6_553_500)?;
    if micros % 100 != 0 {
        return Err(fault(Cause::Range, text));
    }
    Ok(((micros / 100) as u16, rest))
}

// One more data word, where it still counts.
fn keep(found: &mut DataWords, value: u16)
    ensures { found.new.items ≡ take 33 (found.old.items ++ value ∷ []) }
{
    if !found.is_full() {
        found.push(value);
    }
}

// Data words up to the closing bracket.
fn words(text: &[u8]) -> Result<(DataWords, &[u8]), TextFault>
    ensures tree { ReadsTokens (λ x. (x.0.items, tokens x.1.now)) result (counted (words_at (tokens text.now))) }
    ensures fewer { IfOk result (λ x. length (tokens x.1.now) < length (tokens text.now)) }
    ensures of_text { IfErr result (λ e. IsOfText e) }
{
    let mut found = DataWords::new();
    let mut rest = text;
    while let Some((word, after)) = next(rest) {
        if is(word, b"]") {
            return Ok((found, after));
        }
        let Some(value) = data_word_in(word) else {
            return Err(unspelled_fault(word, rest));
        };
        keep(&mut found, value);
        rest = after;
    }
    Err(fault(Cause::End, rest))
}

/// Data words in their brackets.
#[tactic(auto, unfolding(crate::specs::Words::bracketed_at))]
pub fn bracketed(text: &[u8]) -> Result<(DataWords, &[u8]), TextFault>
    ensures tree { ReadsTokens (λ x. (x.0.items, tokens x.1.now)) result (bracketed_at (tokens text.now)) }
    ensures fewer { IfOk result (λ x. length (tokens x.1.now) < length (tokens text.now)) }
    ensures of_text { IfErr result (λ e. IsOfText e) }
{
    let rest = after_token(text, b"[")?;
    words(rest)
}

/// Data words in their brackets, where a bracket opens here.
#[tactic(auto, unfolding(crate::specs::Words::optional_at))]
pub fn optional(text: &[u8]) -> Result<(Option<DataWords>, &[u8]), TextFault>
    ensures tree { ReadsTokens (λ x. (option_map (λ w. w.items) x.0, tokens x.1.now)) result
        (optional_at (tokens text.now)) }
    ensures fewer { IfOk result (λ x. length (tokens x.1.now) ≤ length (tokens text.now)) }
    ensures of_text { IfErr result (λ e. IsOfText e) }
{
    let Some((word, rest)) = next(text) else {
        return Ok((None, text));
    };
    if !is(word, b"[") {
        return Ok((None, text));
    }
    let (found, rest) = words(rest)?;
    Ok((Some(found), rest))
}
