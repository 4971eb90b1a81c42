//! The tokens of a text, one by one: no list of them is ever made.

ghost use Rattle.frame_text.specs.Reading.{ReadsTokens, IsFault, IsOfText, past};
ghost use Rattle.frame_text.specs.Starts.{from_token, behind_token, last_tokens};
ghost use Rattle.frame_text.specs.Tokens.{is_blank, tokens, BeginsToken};
ghost use Rattle.std.specs.Prelude.{◌≡◌, ◌<◌, ◌≤◌, [], ◌∷◌, false, drop, length};
ghost use Rattle.std.specs.Prelude.{MatchOption, IfSome, IfOk, IfErr, OnErr};

use crate::faults::{Cause, TextFault};
use crate::keywords::{is, is_word_byte, misplaced};

/// What was read, and what comes after it.
pub type Read<'a, T> = Result<(T, &'a [u8]), TextFault>;

fn is_blank_byte(b: u8) -> bool
    ensures { result ≡ is_blank b }
{
    b == b' ' || b == b'\t' || b == b'\r' || b == b'\n'
}

// What comes after spaces and comments.
fn skipped(text: &[u8]) -> &[u8]
    ensures tokens { tokens result.now ≡ tokens text.now }
    ensures shorter { length result.now ≤ length text.now }
    ensures begins { BeginsToken result.now }
    ensures from { result.now ≡ from_token false text.now }
{
    let mut rest = text;
    let mut comment = false;
    while let Some((first, after)) = rest.split_first() {
        if comment {
            comment = *first != b'\n';
        } else if *first == b'#' {
            comment = true;
        } else if !is_blank_byte(*first) {
            return rest;
        }
        rest = after;
    }
    rest
}

// The first token of what begins with one, and what comes after it.
fn token(text: &[u8]) -> Option<(&[u8], &[u8])>
    requires { BeginsToken text.now }
    ensures tokens { MatchOption result (tokens text.now ≡ []) (λ x. tokens text.now ≡ x.0.now ∷ tokens x.1.now) }
    ensures shorter { IfSome result (λ x. length x.1.now < length text.now) }
    ensures rest { IfSome result (λ x. x.1.now ≡ drop (length x.0.now) text.now) }
{
    let Some((first, after)) = text.split_first() else {
        return None;
    };
    if !is_word_byte(*first) {
        return Some((&text[..1], after));
    }
    let mut end = 1;
    while end < text.len() && is_word_byte(text[end]) {
        end += 1;
    }
    Some((&text[..end], &text[end..]))
}

/// The first token, and what comes after it; nothing at the end.
pub fn next(text: &[u8]) -> Option<(&[u8], &[u8])>
    ensures tokens { MatchOption result (tokens text.now ≡ []) (λ x. tokens text.now ≡ x.0.now ∷ tokens x.1.now) }
    ensures shorter { IfSome result (λ x. length x.1.now < length text.now) }
    ensures behind { IfSome result (λ x. x.1.now ≡ behind_token text.now) }
{
    token(skipped(text))
}

// How many tokens a text has.
fn count(text: &[u8]) -> usize
    ensures { result ≡ length (tokens text.now) }
{
    let mut found = 0;
    let mut rest = text;
    while let Some((_, after)) = next(rest) {
        found += 1;
        rest = after;
    }
    found
}

// What comes behind the first token.
fn after_first(text: &[u8]) -> &[u8]
    ensures { result.now ≡ behind_token text.now }
{
    match next(text) {
        Some((_, rest)) => rest,
        None => skipped(text),
    }
}

/// The text from the token on with which `left` tokens are left; nothing where none is.
pub fn last(text: &[u8], left: usize) -> &[u8]
    ensures { result.now ≡ last_tokens left text.now }
{
    let over = count(text).saturating_sub(left);
    let mut rest = text;
    let mut behind = 0;
    while behind < over {
        rest = after_first(rest);
        behind += 1;
    }
    skipped(rest)
}

/// The fault at the first token of what is left of the text, or at its end.
pub fn fault(cause: Cause, text: &[u8]) -> TextFault
    ensures is { IsFault cause (tokens text.now) result }
    ensures of_text { IsOfText result }
{
    TextFault::Text(cause, count(text))
}

/// The first token, and what comes after it; a fault at the end.
pub fn first_token(text: &[u8]) -> Read<'_, &[u8]>
    ensures tokens { IfOk result (λ x. tokens text.now ≡ x.0.now ∷ tokens x.1.now) }
    ensures shorter { IfOk result (λ x. length x.1.now < length text.now) }
    ensures end { OnErr result (tokens text.now ≡ []) }
    ensures is { IfErr result (λ e. IsFault Cause.End (tokens text.now) e) }
    ensures of_text { IfErr result (λ e. IsOfText e) }
{
    match next(text) {
        Some(read) => Ok(read),
        None => Err(fault(Cause::End, text)),
    }
}

/// What comes after a token that has to stand here.
#[tactic(auto, unfolding(crate::specs::Reading::past))]
pub fn after_token<'a>(text: &'a [u8], expected: &[u8]) -> Result<&'a [u8], TextFault>
    ensures tree { ReadsTokens (λ x. tokens x.now) result (past expected.now (tokens text.now)) }
    ensures fewer { IfOk result (λ x. length (tokens x.now) < length (tokens text.now)) }
    ensures of_text { IfErr result (λ e. IsOfText e) }
{
    let (word, rest) = first_token(text)?;
    if !is(word, expected) {
        return Err(fault(misplaced(word), text));
    }
    Ok(rest)
}
