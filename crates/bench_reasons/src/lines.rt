//! Why a line of a job is refused.

use crate::fault::{LineFault, RuleFault};
use crate::inserted::inserted_reason;
use crate::kinds::Kind;
use crate::places::{Place, line_of};
use crate::reason::Reason;
use crate::repeated::{order_reason, terminal_reason};
use crate::slips::Slip;
use crate::spans::{count_of_actions, order_of_messages};
use crate::symbols::Symbol;
use crate::walk::{Walk, text_of};
use std::alloc::{AllocError, Global};
use text_lines::next_word;

/// What is wrong with a word of a line, and the column of its first byte, counted from 1.
#[derive(Clone, Copy)]
pub(crate) struct Found<'a> {
    pub(crate) word: &'a [u8],
    pub(crate) column: u64,
    pub(crate) why: &'static str,
    pub(crate) remedy: &'static str,
}

/// The column, counted from 1, at which so many bytes of a line are left.
pub(crate) fn column_at(line: &[u8], left: usize) -> u64 {
    (line.len().saturating_sub(left) as u64).saturating_add(1)
}

/// A word of a line that is at fault, behind which this is left.
pub(crate) fn found_in<'a>(
    line: &[u8],
    word: &'a [u8],
    behind: &[u8],
    why: &'static str,
    remedy: &'static str,
) -> Found<'a> {
    Found {
        word,
        column: column_at(line, word.len().saturating_add(behind.len())),
        why,
        remedy,
    }
}

/// What is wrong with a word that has to be what the symbol says.
fn slip_of(symbol: Symbol, word: &[u8]) -> Option<Slip> {
    match symbol {
        Symbol::One(kind) | Symbol::Rest(kind) => kind.slip(word),
        Symbol::Namings => Kind::Naming.slip(word),
        Symbol::ValueHigh => Kind::ValueNumber.slip(word),
        Symbol::Host if word != b"bc".as_slice() => Kind::Address.slip(word),
        _ if symbol.behind(text_of(word)).is_none() => Some(Slip::Word),
        _ => None,
    }
}

fn why_of(slip: Slip) -> &'static str {
    match slip {
        Slip::Word => "this word cannot stand here",
        Slip::Form => "this is not written as a number that may stand here",
        Slip::Range => "this number is out of its range",
    }
}

/// The first word of a line with a slip, where the line is one of a job or of rules, as a symbol says; where words are
/// looked for, also the first that is left over, or the place of the first that is missing. The words of a message that
/// a line ends with are not looked at.
pub(crate) fn find(
    alloc: Global,
    line: &[u8],
    symbol: Symbol,
    slip: Slip,
) -> Result<Option<Found<'_>>, AllocError> {
    let mut walk = Walk::begin(alloc, &[symbol])?;
    let mut rest = line;
    for _ in 0..line.len() {
        let Some((word, behind)) = next_word(rest) else {
            break;
        };
        let left = word.len().saturating_add(behind.len());
        let column = column_at(line, left);
        let symbol = match walk.wanted(text_of(word)) {
            None => return Ok(left_over(word, column, slip)),
            Some(Symbol::Message) => return Ok(None),
            Some(symbol) => symbol,
        };
        if slip_of(symbol, word) == Some(slip) {
            return Ok(Some(Found {
                word,
                column,
                why: why_of(slip),
                remedy: symbol.allowed(),
            }));
        }
        if !walk.take(text_of(word), left)? {
            return Ok(None);
        }
        rest = behind;
    }
    Ok(missing(&mut walk, line, slip))
}

/// A word behind all that may stand in a line, where words are looked for.
fn left_over(word: &[u8], column: u64, slip: Slip) -> Option<Found<'_>> {
    (slip == Slip::Word).then_some(Found {
        word,
        column,
        why: "nothing more may stand in this line",
        remedy: "take it out",
    })
}

/// The place of a word that is missing at the end of a line.
fn missing<'a>(walk: &mut Walk, line: &'a [u8], slip: Slip) -> Option<Found<'a>> {
    if slip != Slip::Word {
        return None;
    }
    let symbol = walk.missing()?;
    Some(Found {
        word: b"".as_slice(),
        column: column_at(line, 0),
        why: "a word is missing here",
        remedy: symbol.allowed(),
    })
}

/// What a carriage return or a tab does in a word; the column is that of the byte.
fn hidden(found: Found<'_>) -> Found<'_> {
    for (index, byte) in found.word.iter().enumerate() {
        let column = found.column.saturating_add(index as u64);
        match *byte {
            b'\r' => {
                return Found {
                    word: b"\r".as_slice(),
                    column,
                    why: "a carriage return (CR) ends this line, and is part of its last word",
                    remedy: "save the file with lines that end in LF alone, as by tr -d '\\r'",
                };
            }
            b'\t' => {
                return Found {
                    word: b"\t".as_slice(),
                    column,
                    why: "a tab stands in this word",
                    remedy: "words are parted by spaces alone",
                };
            }
            _ => {}
        }
    }
    found
}

/// The reason of what was found in a line.
pub(crate) fn reason_of(number: u64, found: Option<Found<'_>>) -> Option<Reason> {
    let found = hidden(found?);
    let place = Place {
        line: number,
        column: found.column,
    };
    Some(Reason::at(place, found.word.len(), found.why, found.remedy))
}

/// The reason of what was found in a line of rules or of a dictionary that is refused so. Where it has no number out of
/// its range though it is refused for one, it is one line too many, for which this is the reason.
pub(crate) fn reason_or_more(
    number: u64,
    fault: RuleFault,
    found: Option<Found<'_>>,
    more: Reason,
) -> Option<Reason> {
    if found.is_none() && fault == RuleFault::Range {
        return Some(more);
    }
    reason_of(number, found)
}

/// Why a line is refused for a slip of one of its words, or for the message that it inserts.
fn slip_reason(
    alloc: Global,
    text: &[u8],
    number: u64,
    slip: Slip,
) -> Result<Option<Reason>, AllocError> {
    let line = line_of(text, number);
    match reason_of(number, find(alloc, line, Symbol::Entry, slip)?) {
        Some(reason) => Ok(Some(reason)),
        None => inserted_reason(alloc, line, number),
    }
}

/// Why a line is refused for a number that is none or out of its range, or for numbers that do not go together.
fn number_reason(alloc: Global, text: &[u8], number: u64) -> Result<Option<Reason>, AllocError> {
    if let Some(reason) = slip_reason(alloc, text, number, Slip::Form)? {
        return Ok(Some(reason));
    }
    if let Some(reason) = order_of_messages(text, number) {
        return Ok(Some(reason));
    }
    match slip_reason(alloc, text, number, Slip::Range)? {
        Some(reason) => Ok(Some(reason)),
        None => Ok(count_of_actions(text, number)),
    }
}

/// Why a line of a job, counted from 1, is refused; none where that is no fault of it.
pub fn line_reason(
    alloc: Global,
    text: &[u8],
    number: u64,
    fault: LineFault,
) -> Result<Option<Reason>, AllocError> {
    match fault {
        LineFault::Word | LineFault::ActionWord => slip_reason(alloc, text, number, Slip::Word),
        LineFault::Number => number_reason(alloc, text, number),
        LineFault::ActionNumber => slip_reason(alloc, text, number, Slip::Form),
        LineFault::ActionRange | LineFault::FaultRange => slip_reason(
            alloc,
            text,
            number,
            Slip::Range,
        ),
        LineFault::Order => Ok(Some(order_reason(text, number))),
        LineFault::Terminal => Ok(terminal_reason(text, number)),
        LineFault::FaultCount => Ok(Some(Reason::of_line(
            number,
            line_of(text, number),
            "this is the fifth fault of its message",
            "a message has at most four",
        ))),
    }
}
