//! Why a message is refused that the controller's host inserts.

use crate::fault::ScriptFault;
use crate::places::Place;
use crate::reason::Reason;
use crate::scripts::{Text, reason_behind};
use crate::words::from_nth_word;
use frame_text::{ScriptError, read_send};
use std::alloc::{AllocError, Global};
use text_lines::split_word;

/// How many words stand in a line in front of `insert`: `at NUMBER bc`.
const BEFORE_INSERT: u64 = 3;

/// The line of the bus and the message that a line inserts; none where it inserts none.
fn inserted(line: &[u8]) -> Option<&[u8]> {
    let (keyword, _) = split_word(from_nth_word(line, 0));
    let (host, _) = split_word(from_nth_word(line, 2));
    let (control, _) = split_word(from_nth_word(line, BEFORE_INSERT));
    if keyword != b"at".as_slice() || host != b"bc".as_slice() || control != b"insert".as_slice() {
        return None;
    }
    let rest = from_nth_word(line, BEFORE_INSERT + 1);
    match split_word(rest) {
        (word, _) if word == b"at".as_slice() => Some(from_nth_word(rest, 2)),
        _ => Some(rest),
    }
}

/// Why the message is refused that a line inserts, the line counted from 1; none where that is no fault of it.
pub(crate) fn inserted_reason(
    alloc: Global,
    line: &[u8],
    number: u64,
) -> Result<Option<Reason>, AllocError> {
    let Some(message) = inserted(line) else {
        return Ok(None);
    };
    let Err(ScriptError::Text { cause, place }) = read_send(message) else {
        return Ok(None);
    };
    let before = line.len().saturating_sub(message.len()) as u64;
    let place = Place {
        line: 1,
        column: place.column.saturating_add(before),
    };
    match reason_behind(
        alloc,
        line,
        message,
        Text::Send,
        ScriptFault::of(cause),
        place,
    )? {
        None => Ok(None),
        Some(reason) => Ok(Some(reason.in_line(number))),
    }
}
