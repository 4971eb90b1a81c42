//! Why a line of a job stands where it may not: what stands twice, or is missing above it.

use crate::places::{Place, line_of};
use crate::reason::{Other, Reason};
use crate::walk::text_of;
use crate::words::{column_of, from_nth_word};
use numerals::spelled;
use text_lines::{split_line, split_word};

/// The first word of a line, and the one behind it; empty where there is none.
fn words_of(line: &[u8]) -> (&[u8], &[u8]) {
    let (first, rest) = split_word(line);
    let (second, _) = split_word(rest);
    (first, second)
}

/// Where a whole line stands.
fn start_of(number: u64) -> Place {
    Place {
        line: number,
        column: 1,
    }
}

/// The first line above one that has the same first word; and, if asked, the same number behind it.
fn same_above(text: &[u8], number: u64, keyword: &[u8], value: Option<u64>) -> Option<Other> {
    let mut rest = text;
    for above in 1..number {
        if rest.is_empty() {
            return None;
        }
        let (line, behind) = split_line(rest);
        let (first, second) = words_of(line);
        if first == keyword && (value.is_none() || spelled(10, 1, 7, second) == value) {
            return Some(Other {
                place: start_of(above),
                width: line.len(),
                why: "it stands here already",
            });
        }
        rest = behind;
    }
    None
}

/// Why a line is out of its place: `channel` or `start` twice, `channel` or `script` missing.
pub fn order_reason(text: &[u8], number: u64) -> Reason {
    let line = line_of(text, number);
    let (first, _) = words_of(line);
    let (why, remedy) = match text_of(first) {
        "channel" => ("the channel is given twice", "a job is that of one channel"),
        "start" => ("the start is given twice", "give it once"),
        "script" => (
            "no line above gives the channel",
            "write channel N above the script",
        ),
        _ => (
            "no line script stands above the end of the text",
            "write script, and the script behind it",
        ),
    };
    let mut reason = Reason::at(start_of(number), line.len(), why, remedy);
    if first != b"script".as_slice() {
        reason.other = same_above(text, number, first, None);
    }
    reason
}

/// How many words stand in front of the address of a line that names a terminal.
fn before_address(keyword: &str) -> u64 {
    match keyword {
        "terminal" => 1,
        "series" => 4,
        _ => 2,
    }
}

/// Why the terminal of a line may not stand there: it stands above already, or is the one of an action and does not.
pub fn terminal_reason(text: &[u8], number: u64) -> Option<Reason> {
    let line = line_of(text, number);
    let (first, _) = split_word(line);
    let rest = from_nth_word(line, before_address(text_of(first)));
    let (address, _) = split_word(rest);
    let place = Place {
        line: number,
        column: column_of(line, rest),
    };
    if first != b"terminal".as_slice() {
        return Some(Reason::at(
            place,
            address.len(),
            "no line above names this terminal",
            "write terminal N above the actions of its host",
        ));
    }
    let mut reason = Reason::at(
        place,
        address.len(),
        "this terminal is named twice",
        "name each terminal once",
    );
    reason.other = same_above(text, number, first, spelled(10, 1, 7, address));
    Some(reason)
}
