//! Places in a text.

ghost use Rattle.frame_text.specs.Places.{place_behind, token_place, fault_place, HasPlaceOfFault, IsPlaceOf, StandsIn};
ghost use Rattle.frame_text.specs.Reading.{IsLocated, IsOfText, IsTextError};
ghost use Rattle.std.specs.Prelude.{◌≡◌, ◌++◌, ◌-◌, List, ℕ, length, take};

use crate::faults::{Cause, Place, ScriptError, TextFault};
use crate::keywords::is_word_byte;
use crate::tokens::last;

// The place directly behind the first bytes of a text.
fn place_after(before: &[u8]) -> Place
    ensures { result ≡ place_behind before.now }
{
    let mut line: u64 = 1;
    let mut column: u64 = 1;
    for b in before {
        if *b == b'\n' {
            line += 1;
            column = 1;
        } else {
            column += 1;
        }
    }
    Place { line, column }
}

// What comes before the token that ends a text.
fn before_last_token(text: &[u8]) -> &[u8]
    ensures { (after : List ℕ) × (text.now ≡ result.now ++ after) }
{
    let mut before = text;
    while let Some((last, rest)) = before.split_last() {
        if !is_word_byte(*last) {
            break;
        }
        before = rest;
    }
    if before.len() < text.len() {
        return before;
    }
    match text.split_last() {
        Some((_, rest)) => rest,
        None => text,
    }
}

// What comes before the last bytes of a text.
fn without_last(text: &[u8], left: usize) -> &[u8]
    ensures { result.now ≡ take (length text.now - left) text.now }
{
    &text[..text.len().saturating_sub(left)]
}

// The place of the token with which so many tokens are left.
fn place_of_token(text: &[u8], left: usize) -> Place
    ensures is { result ≡ token_place left text.now }
    ensures inside { IsPlaceOf text.now result }
{
    place_after(without_last(text, last(text, left).len()))
}

// The place of a fault, with which so many tokens are left.
#[tactic(auto, using(crate::proofs::Positions::first_place))]
fn place_of_fault(text: &[u8], cause: Cause, left: usize) -> Place
    ensures is { result ≡ fault_place text.now cause left }
    ensures inside { IsPlaceOf text.now result }
{
    match cause {
        Cause::Messages => Place { line: 1, column: 1 },
        _ => place_of_token(text, left),
    }
}

/// A fault with its place in the whole text.
pub fn located(text: &[u8], fault: TextFault) -> ScriptError
    ensures same { IsLocated fault result }
    ensures of_text { IsOfText fault → IsTextError result }
    ensures place { HasPlaceOfFault text.now fault result }
    ensures inside { StandsIn text.now result }
{
    match fault {
        TextFault::Text(cause, left) => ScriptError::Text {
            cause,
            place: place_of_fault(text, cause, left),
        },
        TextFault::Memory(left) => ScriptError::Memory {
            place: place_after(before_last_token(without_last(text, left))),
        },
    }
}
