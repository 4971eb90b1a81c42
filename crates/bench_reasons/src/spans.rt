//! Why the numbers of a line that stands for many messages do not go together.

use crate::places::{Place, line_of};
use crate::reason::Reason;
use crate::walk::text_of;
use crate::words::{column_of, from_nth_word};
use numerals::spelled;
use text_lines::split_word;

/// Whether a line of a job stands for many messages: its second word is the first of them, its third the last.
fn is_of_many(line: &[u8]) -> bool {
    matches!(text_of(split_word(line).0), "faults" | "series")
}

/// Why the last message of a line of a job, counted from 1, may not stand behind its first; none where it may.
pub fn order_of_messages(text: &[u8], number: u64) -> Option<Reason> {
    let line = line_of(text, number);
    if !is_of_many(line) {
        return None;
    }
    let (first, behind) = split_word(from_nth_word(line, 1));
    let (last, _) = split_word(behind);
    let rest = from_nth_word(line, 2);
    if spelled(10, 1, 7, first)? <= spelled(10, 1, 7, last)? {
        return None;
    }
    Some(Reason::at(
        Place {
            line: number,
            column: column_of(line, rest),
        },
        last.len(),
        "the last message stands before the first",
        "write the first, the last and the step, as in faults 2 100 7 mute 1",
    ))
}

/// Why a line `series`, counted from 1, is refused whose words and numbers are each well; none for another line.
pub fn count_of_actions(text: &[u8], number: u64) -> Option<Reason> {
    let line = line_of(text, number);
    if text_of(split_word(line).0) != "series" {
        return None;
    }
    Some(Reason::of_line(
        number,
        line,
        "with this line the series of the job place more than 1000000 actions",
        "end a series earlier, or take a longer step",
    ))
}
