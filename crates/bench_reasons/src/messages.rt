//! Which number of a message is at fault.

use crate::fault::MessageFault;
use crate::kinds::Kind;
use crate::places::{last_of, place_at};
use crate::reason::Reason;
use crate::slips::Slip;
use crate::symbols::{Symbol, behind_message_word};
use crate::walk::text_of;
use frame_text::next_token;
use numerals::spelled;

/// How many data words a message may have (MIL-STD-1553B 4.3.3.5.1.5).
const MOST_WORDS: usize = 32;

/// A token of a message: how many bytes of the text are left from its first one on, and what follows it.
#[derive(Clone, Copy)]
struct Token<'a> {
    word: &'a [u8],
    left: usize,
    behind: &'a [u8],
}

/// The first token of a text.
fn first(text: &[u8]) -> Option<Token<'_>> {
    let (word, behind) = next_token(text)?;
    Some(Token {
        word,
        left: word.len().saturating_add(behind.len()),
        behind,
    })
}

/// Why the message is refused that begins where so many bytes of a text are left.
pub fn message_reason(text: &[u8], left: usize, bad: MessageFault) -> Option<Reason> {
    let name = first(last_of(text, left))?;
    let operands = behind_message_word(text_of(name.word))?;
    let (token, why, remedy) = at_fault(operands, name, bad)?;
    Some(Reason::at(place_at(text, token.left), token.word.len(), why, remedy))
}

/// The token at fault, why it is, and what to do.
type Blame<'a> = (Token<'a>, &'static str, &'static str);

/// The first of the operands behind a message's name that is at fault so.
fn at_fault<'a>(operands: &[Symbol], name: Token<'a>, bad: MessageFault) -> Option<Blame<'a>> {
    let mut before = name;
    let mut ends = 0u8;
    for symbol in operands {
        if *symbol == Symbol::OptionalWords {
            return mode_word(before, bad);
        }
        let token = first(before.behind)?;
        if *symbol == Symbol::Words {
            return count_of_words(before, token);
        }
        if *symbol == Symbol::One(Kind::Address) {
            ends = ends.saturating_add(1);
        }
        if let Some((why, remedy)) = operand_fault(*symbol, token.word, name.word, ends, bad) {
            return Some((token, why, remedy));
        }
        before = token;
    }
    None
}

/// What is wrong with an operand, if it is at fault so; `ends` terminals are named up to it.
fn operand_fault(
    symbol: Symbol,
    word: &[u8],
    name: &[u8],
    ends: u8,
    bad: MessageFault,
) -> Option<(&'static str, &'static str)> {
    let Symbol::One(kind) = symbol else {
        return None;
    };
    let is_out = kind.slip(word) == Some(Slip::Range);
    match (bad, kind) {
        (MessageFault::Address, Kind::Address) | (MessageFault::Subaddress, Kind::Subaddress)
            if is_out => { Some(("this number is out of its range", kind.allowed())) }
        (MessageFault::CountOrCode, Kind::Count | Kind::ModeCode) if is_out => {
            Some(("this number is out of its range", kind.allowed()))
        }
        (MessageFault::CountOrCode, Kind::ModeCode) if name.starts_with(b"b") => Some((
            "this mode code asks a terminal for a word",
            "it cannot be sent to all; ask one terminal, with mode",
        )),
        (MessageFault::SameEnds, Kind::Address) if ends > 1 => Some((
            "both ends of the transfer are the same terminal",
            "name two terminals",
        )),
        _ => None,
    }
}

/// The data words of a message that has none, or too many.
fn count_of_words<'a>(bracket: Token<'a>, next: Token<'a>) -> Option<Blame<'a>> {
    let mut token = next;
    for count in 0..=MOST_WORDS {
        if token.word == b"]".as_slice() {
            return (count == 0).then_some((
                bracket,
                "no data word stands in these brackets",
                Kind::Count.allowed(),
            ));
        }
        if count == MOST_WORDS {
            return Some((
                token,
                "this is the thirty-third data word",
                Kind::Count.allowed(),
            ));
        }
        token = first(token.behind)?;
    }
    None
}

/// The data word of a mode command that lacks it, or has it unasked; `code` is its mode code.
fn mode_word(code: Token<'_>, bad: MessageFault) -> Option<Blame<'_>> {
    if bad != MessageFault::ModeWord {
        return None;
    }
    let number = spelled(10, 1, 7, code.word).unwrap_or(0);
    match first(code.behind) {
        Some(bracket) if bracket.word == b"[".as_slice() => {
            let (why, remedy) = words_of_code(number);
            Some((bracket, why, remedy))
        }
        _ => Some((
            code,
            "mode codes 17, 20 and 21 take one data word in brackets",
            "write it behind the code, as in mode 5 17 [0001]",
        )),
    }
}

/// What is wrong with the brackets behind a mode code.
fn words_of_code(code: u64) -> (&'static str, &'static str) {
    match code {
        0..=15 => (
            "mode codes 0 to 15 have no data word",
            "leave out the brackets",
        ),
        16 | 18 | 19 => (
            "the terminal sends the data word of mode codes 16, 18 and 19",
            "leave out the brackets",
        ),
        _ => (
            "a mode command has exactly one data word",
            "write one word in the brackets",
        ),
    }
}
