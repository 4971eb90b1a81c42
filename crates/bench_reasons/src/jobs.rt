//! Why the script of a job is refused.

use crate::fault::ScriptFault;
use crate::places::Place;
use crate::reason::Reason;
use crate::scripts::{Text, reason_behind};
use std::alloc::{AllocError, Global};
use text_lines::{next_word, split_line};

/// Why the script of a job is refused with a fault at a place of the whole text; none where that is no fault of it.
pub fn job_script_reason(
    alloc: Global,
    text: &[u8],
    fault: ScriptFault,
    place: Place,
) -> Result<Option<Reason>, AllocError> {
    reason_behind(alloc, text, script_of(text), Text::Job, fault, place)
}

/// What stands behind the line `script`.
fn script_of(text: &[u8]) -> &[u8] {
    let mut rest = text;
    for _ in 0..text.len() {
        let (line, behind) = split_line(rest);
        if next_word(line).is_some_and(|(word, _)| word == b"script".as_slice()) {
            return behind;
        }
        rest = behind;
    }
    b""
}
